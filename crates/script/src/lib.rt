// The text of a script: its lines, the words of a line, the call that a line asks for, and the line that answers it.
#![tactic(auto)]

pub use calls::{
    Access, Answer, Call, LineFault, OtherFault, PlayerFault, Position, Refusal, Report, StepKind,
    Usage, WordFault,
};
pub use script_reader::{
    Line, Lines, Token, TooLong, Word, line_at, lines_within, nth_word, read, read_line,
};
pub use script_writer::{LINE_ROOM, NoRoom, write_answer, write_fault};

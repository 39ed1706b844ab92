// The lines of a script, the words of a line, and the call that a line asks for.
#![tactic(auto)]

pub mod lines;
pub mod names;
pub mod numbers;
mod pieces;
pub mod reader;
pub mod words;

pub use lines::{Line, Lines, TooLong, line_at, lines_within, walks_meet_lines};
pub use reader::{read, read_line};
pub use words::{Token, Word, nth_word};

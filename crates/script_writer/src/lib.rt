// The lines that a play writes.
#![tactic(auto)]

mod line;
pub mod writer;

pub use line::NoRoom;
pub use writer::{LINE_ROOM, write_answer, write_fault};

// The calls of a space, what they answer, and what may be wrong with a line.
#![tactic(auto)]

pub mod answer;
pub mod call;
pub mod faults;

pub use answer::{Answer, Refusal, Report, StepKind, Usage};
pub use call::{Access, Call};
pub use faults::{LineFault, OtherFault, PlayerFault, Position, WordFault};

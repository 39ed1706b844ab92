// A second player of the whole system, kept simple: it finds references by looking at every object. It shares no type and
// no number with the crates that it is to be compared with, so that it cannot share a mistake of theirs.
#![tactic(auto)]

mod answering;
mod carry;
mod counts;
mod failure;
mod objects;
mod playing;
mod requests;
mod sets;
mod space;
mod step;
mod trains;

pub use failure::Failure;
pub use playing::{PlayError, play};
pub use sets::{Choice, Pair, Remembered};
pub use space::Space;

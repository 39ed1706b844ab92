// Failures of the player, as against refusals of a call.
use script::NoRoom;
use std::alloc::AllocError;
use thiserror::Error;

/// What can stop the player itself.
#[derive(Clone, Copy, Debug, Error)]
pub enum Failure {
    /// The player found no memory.
    #[error("no memory is left")]
    Memory(#[from(alloc)] AllocError),
    /// No car was free. The limit on the words in use rules it out; it has a case of its own so that it cannot pass unseen.
    #[error("no car is free")]
    NoCar,
    /// A number stood for no object. Objects are only added, so each number given out stands for one; it has a case
    /// of its own for the same reason.
    #[error("an object is missing")]
    NoObject,
    /// Fewer than 64 bytes were left for an output line. The output has 64 for each, so this is ruled out too.
    #[error(transparent)]
    NoRoom(#[from] NoRoom),
}

//! Moving the claimed objects of the car that is being emptied, and correcting what held them.
#![tactic(auto)]

pub mod fixes;
pub mod moves;
pub mod notes;

/// How many words a car has.
pub(crate) const CAR_WORDS: u32 = 128;

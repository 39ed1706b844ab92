//! The trains here and those of the model.

ghost use Rattle.trains.specs.Ties.{CallsFollow, FillsFollow, LaterByNumbers, StandsInItsRoom};

/// Placing, ending a train without cars, the arrival rank, the lowest free car and what is counted come out the same of trains
/// of objects and of their cars' numbers and fills.
#[tactic(auto, using(crate::proofs::Follow::fills_follow))]
pub fn fills_follow_the_model()
    ensures { FillsFollow }
{}

/// Of two objects the one in the later car is told by their cars alone, where cars have different numbers.
#[tactic(auto, using(crate::proofs::Follow::later_by_numbers))]
pub fn later_is_told_by_cars()
    ensures { LaterByNumbers }
{}

/// An object that is placed stands at the address of the room made for it, if it lay nowhere before; all others stay.
#[tactic(auto, using(crate::proofs::Follow::stands_in_its_room))]
pub fn objects_stand_in_their_room()
    ensures { StandsInItsRoom }
{}

/// A new object is placed, and a step takes the first car, places what was claimed and releases the car, or frees the first
/// train: the fills are those of the model's trains after the call.
#[tactic(auto, using(crate::proofs::Follow::calls_follow))]
pub fn calls_follow_the_model()
    ensures { CallsFollow }
{}

// Steps over several trains.
use crate::outputs::{Played, plays};
use scanner::Choice;
use std::test::Fail;

// Two objects that hold each other, in two trains.
fn cycle<'a>(first_step: &'a str) -> [Played<'a>; 9] {
    [
        ("make 0 0 1 1", "0"),
        ("make 1 0 1 0", "0"),
        ("link 0 0 1", "0"),
        ("link 1 0 0", "0"),
        ("drop 0", "0"),
        ("drop 1", "0"),
        ("step", first_step),
        ("step", "0 train 0 0 0 2 0 1"),
        ("tally", "0 0 0 0 0"),
    ]
}

// One slot was noted.
#[test]
fn a_cycle_goes_by_slots(rt: HostRuntime) -> Result<(), Fail> {
    plays(&rt, rt.alloc(), Choice::Slots, &cycle("0 car 1 0 3 0 1 1"))
}

// The slot's card has sixteen addresses.
#[test]
fn a_cycle_goes_by_cards(rt: HostRuntime) -> Result<(), Fail> {
    plays(&rt, rt.alloc(), Choice::Cards, &cycle("0 car 1 0 3 0 16 1"))
}

#[test]
fn a_cycle_goes_by_buffered_slots(rt: HostRuntime) -> Result<(), Fail> {
    plays(
        &rt,
        rt.alloc(),
        Choice::BufferedSlots,
        &cycle("0 car 1 0 3 0 1 1"),
    )
}

// The buffer still holds the pair, so its card is not yet marked.
#[test]
fn a_cycle_goes_by_buffered_cards(rt: HostRuntime) -> Result<(), Fail> {
    plays(
        &rt,
        rt.alloc(),
        Choice::BufferedCards,
        &cycle("0 car 1 0 3 0 1 1"),
    )
}

// The object of root 0 is held by a garbage array of the second train and by an array of the third. It goes to the
// second train and not to the arrival rank, and the third train's slot is noted for its new car.
const THIRD_TRAIN: [Played; 23] = [
    ("make 0 0 1 1", "0"),
    ("make 1 1 63 0", "0"),
    ("make 2 1 63 0", "0"),
    ("make 2 1 63 0", "0"),
    ("make 2 1 63 0", "0"),
    ("make 2 1 63 0", "0"),
    ("make 2 1 63 0", "0"),
    ("make 2 1 63 0", "0"),
    ("make 3 1 63 0", "0"),
    ("link 1 0 0", "0"),
    ("link 3 0 0", "0"),
    ("drop 0", "0"),
    ("drop 1", "0"),
    ("drop 2", "0"),
    ("tally", "0 515 6 3 0"),
    ("step", "0 car 1 0 3 0 2 1"),
    ("tally", "0 515 5 2 0"),
    ("step", "0 car 0 0 0 2 1 1"),
    ("tally", "0 387 4 2 1"),
    ("step", "0 car 0 0 0 2 1 1"),
    ("step", "0 car 0 0 0 2 1 1"),
    ("step", "0 car 1 0 3 1 1 1"),
    ("tally", "0 67 1 1 0"),
];

#[test]
fn a_slot_of_a_third_train_is_noted_again(rt: HostRuntime) -> Result<(), Fail> {
    plays(&rt, rt.alloc(), Choice::Slots, &THIRD_TRAIN)
}

#[test]
fn a_buffer_holds_the_third_train_too(rt: HostRuntime) -> Result<(), Fail> {
    plays(&rt, rt.alloc(), Choice::BufferedCards, &THIRD_TRAIN)
}

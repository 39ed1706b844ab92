// The mark: a step from which nothing leaves the first train names an object, and a later step carries it away.
use crate::outputs::{Played, plays};
use scanner::Choice;
use std::test::Fail;

// The first train comes to have two cars, and the root holds an object of the second. The mutator then goes on to
// another object of that train, so that only the mark carries the first one, and its follower with it.
fn moving_root<'a>(second_step: &'a str, last_step: &'a str) -> [Played<'a>; 21] {
    [
        ("make 0 0 0 1", "0"),
        ("make 1 1 63 0", "0"),
        ("make 2 1 63 0", "0"),
        ("make 3 1 63 0", "0"),
        ("make 4 1 63 0", "0"),
        ("link 3 0 1", "0"),
        ("link 3 1 4", "0"),
        ("link 4 0 3", "0"),
        ("drop 0", "0"),
        ("drop 1", "0"),
        ("drop 2", "0"),
        ("drop 4", "0"),
        ("step", "0 train 0 0 0 1 0 1"),
        ("step", second_step),
        ("tally", "0 192 2 1 1"),
        ("follow 5 3 0", "0"),
        ("drop 3", "0"),
        ("step", "0 car 2 0 128 0 0 1"),
        ("tally", "0 192 2 2 0"),
        ("step", last_step),
        ("tally", "0 192 2 1 0"),
    ]
}

#[test]
fn the_marked_object_leaves_by_slots(rt: HostRuntime) -> Result<(), Fail> {
    let table = moving_root("0 car 0 1 64 1 1 1", "0 car 1 0 64 0 1 1");
    plays(&rt, rt.alloc(), Choice::Slots, &table)
}

#[test]
fn the_marked_object_leaves_by_cards(rt: HostRuntime) -> Result<(), Fail> {
    let table = moving_root("0 car 0 1 64 1 16 1", "0 car 1 0 64 0 16 1");
    plays(&rt, rt.alloc(), Choice::Cards, &table)
}

#[test]
fn the_marked_object_leaves_by_buffered_slots(rt: HostRuntime) -> Result<(), Fail> {
    let table = moving_root("0 car 0 1 64 1 1 1", "0 car 1 0 64 0 1 1");
    plays(&rt, rt.alloc(), Choice::BufferedSlots, &table)
}

// Refused calls, and lines that the reader cannot take.
use crate::outputs::{Played, plays, plays_text};
use scanner::Choice;
use std::test::Fail;

const REFUSED: [Played; 19] = [
    ("same 0 31", "0 1"),
    ("same 0 32", "1"),
    ("make 32 9 9 9", "1"),
    ("make 0 0 0 0", "4"),
    ("make 0 0 15 15", "0"),
    ("make 0 1 63 0", "0"),
    ("make 0 1 64 0", "4"),
    ("make 0 1 63 1", "4"),
    ("make 0 2 1 1", "4"),
    ("get 1 0", "2"),
    ("get 0 0", "3"),
    ("link 0 63 32", "1"),
    ("link 1 63 0", "2"),
    ("link 0 63 0", "3"),
    ("link 0 62 1", "0"),
    ("follow 32 1 0", "1"),
    ("follow 2 1 0", "2"),
    ("follow 2 0 63", "3"),
    ("tally", "0 95 2 2 0"),
];

#[test]
fn the_smallest_number_is_answered(rt: HostRuntime) -> Result<(), Fail> {
    plays(&rt, rt.alloc(), Choice::Slots, &REFUSED)
}

const LIFTS: [Played; 12] = [
    ("make 0 0 0 1", "0"),
    ("put 0 0 10", "0"),
    ("lift 0 0 -11", "6"),
    ("get 0 0", "0 10"),
    ("lift 0 0 -10", "0"),
    ("get 0 0", "0 0"),
    ("put 0 0 4294967295", "0"),
    ("lift 0 0 1", "6"),
    ("lift 0 0 -2147483648", "0"),
    ("lift 0 0 2147483647", "0"),
    ("get 0 0", "0 4294967294"),
    ("lift 0 1 1", "3"),
];

#[test]
fn lifts_stay_in_their_range(rt: HostRuntime) -> Result<(), Fail> {
    plays(&rt, rt.alloc(), Choice::Slots, &LIFTS)
}

#[test]
fn a_leading_zero_stops_the_play(rt: HostRuntime) -> Result<(), Fail> {
    plays_text(
        &rt,
        rt.alloc(),
        Choice::Slots,
        "drop 7\ndrop 07\ntally\n",
        "0\nreader 10 line 2 at 5\n",
    )
}

#[test]
fn a_space_behind_a_call_stops_the_play(rt: HostRuntime) -> Result<(), Fail> {
    plays(
        &rt,
        rt.alloc(),
        Choice::Slots,
        &[("step ", "reader 9 line 1 at 5")],
    )
}

#[test]
fn a_missing_word_is_told_at_the_end_of_its_line(rt: HostRuntime) -> Result<(), Fail> {
    plays(
        &rt,
        rt.alloc(),
        Choice::Slots,
        &[("", "reader 9 line 1 at 0")],
    )?;
    plays_text(
        &rt,
        rt.alloc(),
        Choice::Slots,
        "link x 1",
        "reader 9 line 1 at 8\n",
    )
}

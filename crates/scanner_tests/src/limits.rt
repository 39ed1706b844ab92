// The limits of a script and of a space.
use crate::outputs::{is_refused, plays, plays_text};
use scanner::Choice;
use std::test::Fail;

// Forty-eight arrays of sixty-four words fill the space. Dropping all but the last and freeing the first train, which
// has one of them, gives room for one more.
#[test]
fn forty_eight_arrays_fill_the_space(rt: HostRuntime) -> Result<(), Fail> {
    let mut table = vec![in rt.alloc(); ("make 0 1 63 0", "0"); 48]?;
    table.extend_from_slice(&[
        ("tally", "0 3072 28 8 0"),
        ("make 1 0 0 1", "5"),
        ("make 1 0 0 0", "4"),
        ("make 32 0 0 1", "1"),
        ("step", "0 train 0 0 0 1 0 1"),
        ("make 1 1 63 0", "0"),
        ("make 1 0 0 1", "5"),
    ])?;
    plays(&rt, rt.alloc(), Choice::Slots, &table)
}

#[test]
fn a_script_has_up_to_512_lines(rt: HostRuntime) -> Result<(), Fail> {
    let table = vec![in rt.alloc(); ("drop 3", "0"); 512]?;
    plays(&rt, rt.alloc(), Choice::Slots, &table)?;
    let longer = "drop 3\n".repeat(rt.alloc(), 513)?;
    is_refused(rt.alloc(), &longer)
}

// One long line: the reader says what it is if it is not too long.
#[test]
fn a_script_has_up_to_32768_bytes(rt: HostRuntime) -> Result<(), Fail> {
    let mut text = "step".repeat(rt.alloc(), 8192)?;
    plays_text(
        &rt,
        rt.alloc(),
        Choice::Slots,
        &text,
        "reader 9 line 1 at 0\n",
    )?;
    text.push('\n')?;
    is_refused(rt.alloc(), &text)
}

#[test]
fn an_empty_script_is_played(rt: HostRuntime) -> Result<(), Fail> {
    plays_text(&rt, rt.alloc(), Choice::Slots, "", "")
}

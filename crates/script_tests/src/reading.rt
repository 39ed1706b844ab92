// Which call a line asks for, and which fault it has.
use script::{Access, Call, PlayerFault, Position, read};
use std::process::Abort;

fn asks(rt: &impl Abort, line: &[u8], wanted: Call) {
    assert_eq!(rt; read(line, 1), Ok(wanted));
}

fn faults(rt: &impl Abort, line: &[u8], number: u8, place: usize) {
    let PlayerFault::Reader(fault) = read(line, 4).expect_err(rt, "the line has a fault");
    assert_eq!(rt; fault.number(), number);
    assert_eq!(rt; fault.position(), Position { line: 4, place });
}

#[test]
fn every_call_is_read(rt: HostRuntime) {
    asks(
        &rt,
        b"make 0 1 63 0",
        Call::Make {
            root: 0,
            kind: 1,
            refs: 63,
            words: 0,
        },
    );
    asks(
        &rt,
        b"link 1 2 3",
        Call::Access(Access::Link {
            root: 1,
            slot: 2,
            from: 3,
        }),
    );
    asks(
        &rt,
        b"follow 1 2 3",
        Call::Access(Access::Follow {
            root: 1,
            from: 2,
            slot: 3,
        }),
    );
    asks(&rt, b"drop 31", Call::Access(Access::Drop { root: 31 }));
    asks(
        &rt,
        b"put 4 5 4294967295",
        Call::Access(Access::Put {
            root: 4,
            word: 5,
            value: 4_294_967_295,
        }),
    );
    asks(
        &rt,
        b"get 4 5",
        Call::Access(Access::Get { root: 4, word: 5 }),
    );
    asks(
        &rt,
        b"same 4 5",
        Call::Access(Access::Same { root: 4, other: 5 }),
    );
    asks(&rt, b"step", Call::Step);
    asks(&rt, b"tally", Call::Tally);
}

#[test]
fn a_lift_goes_both_ways(rt: HostRuntime) {
    asks(
        &rt,
        b"lift 1 2 2147483647",
        Call::Access(Access::Lift {
            root: 1,
            word: 2,
            by: 2_147_483_647,
        }),
    );
    asks(
        &rt,
        b"lift 1 2 0",
        Call::Access(Access::Lift {
            root: 1,
            word: 2,
            by: 0,
        }),
    );
    asks(
        &rt,
        b"lift 1 2 -1",
        Call::Access(Access::Lift {
            root: 1,
            word: 2,
            by: -1,
        }),
    );
    asks(
        &rt,
        b"lift 1 2 -2147483648",
        Call::Access(Access::Lift {
            root: 1,
            word: 2,
            by: -2_147_483_648,
        }),
    );
    faults(&rt, b"lift 1 2 2147483648", 10, 9);
    faults(&rt, b"lift 1 2 -2147483649", 10, 9);
    faults(&rt, b"lift 1 2 -0", 10, 9);
    faults(&rt, b"lift 1 2 -", 10, 9);
    faults(&rt, b"lift 1 2 +1", 10, 9);
}

#[test]
fn a_word_that_names_no_call(rt: HostRuntime) {
    faults(&rt, b"", 9, 0);
    faults(&rt, b" step", 9, 0);
    faults(&rt, b"steps", 9, 0);
    faults(&rt, b"ste", 9, 0);
    faults(&rt, b"Step", 9, 0);
    faults(&rt, b"open", 9, 0);
    faults(&rt, b"words 0", 9, 0);
    faults(&rt, b"drop\t0", 9, 0);
    faults(&rt, b"step\r", 9, 0);
}

#[test]
fn missing_and_surplus_words(rt: HostRuntime) {
    faults(&rt, b"drop", 9, 4);
    faults(&rt, b"make 0 0 1", 9, 10);
    faults(&rt, b"step ", 9, 5);
    faults(&rt, b"step 0", 9, 5);
    faults(&rt, b"drop 1 ", 9, 7);
    faults(&rt, b"drop 1  2", 9, 7);
    faults(&rt, b"get 1 2 3 4", 9, 8);
    faults(&rt, b"get x", 9, 5);
    faults(&rt, b"get 007 x 3", 9, 10);
}

#[test]
fn words_that_are_no_numbers(rt: HostRuntime) {
    faults(&rt, b"drop 07", 10, 5);
    faults(&rt, b"drop 007", 10, 5);
    faults(&rt, b"drop 00", 10, 5);
    faults(&rt, b"drop ", 10, 5);
    faults(&rt, b"drop  1", 9, 6);
    faults(&rt, b"get  1", 10, 4);
    faults(&rt, b"drop +1", 10, 5);
    faults(&rt, b"drop -1", 10, 5);
    faults(&rt, b"drop 1a", 10, 5);
    faults(&rt, b"drop 4294967296", 10, 5);
    faults(&rt, b"drop 99999999999999999999999", 10, 5);
    faults(&rt, b"get 1 x", 10, 6);
    faults(&rt, b"get x x", 10, 4);
}

// The call that no script has: all data words of an object at once.
use scanner::{Choice, Space};
use script::{Access, Answer, Call, Refusal};
use std::process::Abort;
use std::test::Fail;

fn asks(
    rt: &impl Abort,
    space: &mut Space,
    root: u32,
    room: usize,
    wanted: Answer,
) -> Result<(), Fail> {
    let call = Call::Access(Access::Words { root, room });
    assert_eq!(rt; space.answer(call)?, wanted);
    Ok(())
}

#[test]
fn a_buffer_is_long_enough_or_not(rt: HostRuntime) -> Result<(), Fail> {
    let mut space = Space::open(rt.alloc(), Choice::Slots);
    let make = Call::Make {
        root: 1,
        kind: 0,
        refs: 2,
        words: 3,
    };
    assert_eq!(rt; space.answer(make)?, Answer::Done);
    asks(&rt, &mut space, 32, 0, Answer::Refused(Refusal::Root))?;
    asks(&rt, &mut space, 0, 0, Answer::Refused(Refusal::Empty))?;
    asks(&rt, &mut space, 1, 2, Answer::Refused(Refusal::Buffer))?;
    asks(&rt, &mut space, 1, 3, Answer::Words(3))?;
    asks(&rt, &mut space, 1, 4, Answer::Words(3))
}

// An array has no data words, so it asks for no room.
#[test]
fn an_array_has_no_words(rt: HostRuntime) -> Result<(), Fail> {
    let mut space = Space::open(rt.alloc(), Choice::Slots);
    let make = Call::Make {
        root: 0,
        kind: 1,
        refs: 1,
        words: 0,
    };
    assert_eq!(rt; space.answer(make)?, Answer::Done);
    asks(&rt, &mut space, 0, 0, Answer::Words(0))
}

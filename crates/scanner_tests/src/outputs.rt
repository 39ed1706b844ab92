// Compares a play with the output that is wanted.
use scanner::{Choice, PlayError, play};
use std::alloc::Global;
use std::process::Abort;
use std::test::Fail;

/// A line of a script, and the line that answers it.
pub type Played<'a> = (&'a str, &'a str);

/// Plays the lines of the table, each of which is answered by the line beside it.
pub fn plays(
    rt: &impl Abort,
    heap: Global,
    choice: Choice,
    table: &[Played<'_>],
) -> Result<(), Fail> {
    let mut script = String::new(heap);
    let mut wanted = String::new(heap);
    for (line, answer) in table {
        script.push_str(line)?;
        script.push('\n')?;
        wanted.push_str(answer)?;
        wanted.push('\n')?;
    }
    plays_text(rt, heap, choice, &script, &wanted)
}

/// Plays a script whose lines are not all answered.
pub fn plays_text(
    rt: &impl Abort,
    heap: Global,
    choice: Choice,
    script: &str,
    wanted: &str,
) -> Result<(), Fail> {
    let output = play(heap, script.as_bytes(), choice)?;
    assert!(rt; output.as_slice() == wanted.as_bytes());
    Ok(())
}

pub fn is_refused(heap: Global, script: &str) -> Result<(), Fail> {
    match play(heap, script.as_bytes(), Choice::Slots) {
        Err(PlayError::TooLong(_)) => Ok(()),
        _ => Err(Fail::new("the script is not refused")),
    }
}

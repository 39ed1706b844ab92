// A play: a space is opened, and each line of a script is answered by one line.
use crate::failure::Failure;
use crate::sets::Choice;
use crate::space::Space;
use script::{LINE_ROOM, Lines, TooLong, lines_within, read, write_answer, write_fault};
use std::alloc::Global;
use thiserror::Error;

/// Why a script has no output.
#[derive(Clone, Copy, Debug, Error)]
pub enum PlayError {
    /// The script is refused as a whole.
    #[error("refused 11: {0}")]
    TooLong(#[from] TooLong),
    /// The player could not go on.
    #[error("stopped: {0}")]
    Stopped(#[from] Failure),
}

/// The output of a script. A fault of the reader is told in the last line, after which nothing is played.
pub fn play(heap: Global, script: &[u8], choice: Choice) -> Result<Vec<u8>, PlayError> {
    let lines = lines_within(script)?;
    Ok(play_lines(heap, script, lines, choice)?)
}

// The output of a script of so many lines, with room for each.
fn play_lines(
    heap: Global,
    script: &[u8],
    lines: usize,
    choice: Choice,
) -> Result<Vec<u8>, Failure> {
    let mut space = Space::open(heap, choice);
    let mut output = vec![in heap; 0u8; lines.saturating_mul(LINE_ROOM)]?;
    // The writer lays each line into a lent buffer, as C will lend one, so how far it is filled stands beside it.
    let mut written = 0;
    for (number, text) in (1..=u32::MAX).zip(Lines::new(script)) {
        match read(text, number) {
            Ok(call) => {
                let answer = space.answer(call)?;
                written = write_answer(&mut output, written, &answer)?;
            }
            Err(fault) => {
                written = write_fault(&mut output, written, &fault)?;
                break;
            }
        }
    }
    output.truncate(written);
    Ok(output)
}

// A script's lines. Byte 10 ends each of them; where no byte 10 ends the script, what stands behind the last one is a line
// too.
ghost use Rattle.std.specs.Prelude.{◌≡◌, ℕ, List};
ghost use Rattle.std.specs.Result.{result_ok};
ghost use Rattle.std.specs.Iterator.{YieldsFirstRef, item_count};
ghost use Rattle.script_reader.specs.Lines.{lines, lines_within, LineAt, CutsLine, WalksMeetLines};

use crate::pieces::cut_at;
use std::marker::Model;
use thiserror::Error;

/// A script of more bytes is too long to be played.
pub const MOST_BYTES: usize = 32_768;

/// A script of more lines is too long to be played.
pub const MOST_LINES: usize = 512;

const NEWLINE: u8 = b'\n';

/// A line of a script.
#[derive(Clone, Copy, PartialEq, Eq, Debug)]
pub struct Line<'a> {
    /// The line without the byte that ends it.
    pub text: &'a [u8],
    /// Where the next line begins.
    pub next: usize,
}

/// A script has more than `MOST_BYTES` bytes or `MOST_LINES` lines.
#[derive(Clone, Copy, PartialEq, Eq, Debug, Error)]
#[error("the script has more than 32,768 bytes or 512 lines")]
pub struct TooLong;

// The first line, and what stands behind the byte that ends it.
fn first_line(script: &[u8]) -> Option<(&[u8], &[u8])>
    ensures { CutsLine script.now result }
{
    if script.is_empty() {
        return None;
    }
    let (text, rest) = cut_at(script, NEWLINE);
    Some((text, rest.unwrap_or(&[])))
}

/// The lines of a script that are still to come, without the bytes that end them.
#[derive(Drop)]
pub struct Lines<'a> {
    rest: &'a [u8],
}

impl<'a> Model for Lines<'a> {
    ghost Value = { List (List ℕ) };

    ghost view = { λ s. lines s.rest.now };
}

impl<'a> Lines<'a> {
    /// All lines of a script.
    pub fn new(script: &'a [u8]) -> Lines<'a>
        ensures { result ≡ lines script.now }
    {
        Lines { rest: script }
    }
}

impl<'a> Iterator for Lines<'a> {
    type Item = &'a [u8];

    ghost next_gives = { YieldsFirstRef (λ s. s) };

    ghost remaining = { item_count (λ s. s) };

    fn next(&mut self) -> Option<&'a [u8]> {
        let (text, rest) = first_line(self.rest)?;
        self.rest = rest;
        Some(text)
    }
}

/// How many lines a script has, or an error if it is too long to be played.
pub fn lines_within(script: &[u8]) -> Result<usize, TooLong>
    ensures { result_ok result ≡ lines_within script.now }
{
    if script.len() > MOST_BYTES {
        return Err(TooLong);
    }
    let count = Lines::new(script).count();
    if count > MOST_LINES {
        return Err(TooLong);
    }
    Ok(count)
}

/// The line that begins at `start`, or none behind the last one.
pub fn line_at<'a>(script: &'a [u8], start: usize) -> Option<Line<'a>>
    ensures { LineAt script.now start result }
{
    let (text, rest) = first_line(script.get(start..)?)?;
    Some(Line {
        text,
        next: script.len() - rest.len(),
    })
}

/// Going from line to line: whoever begins at 0 and goes on from each line that `line_at` gives to its `next` meets all
/// lines of the script, in order, and they are as many as `lines_within` counts.
pub fn walks_meet_lines()
    ensures { WalksMeetLines }
{}

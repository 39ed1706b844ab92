// Parts of a line, put one behind another where the line stands in the buffer. The buffer and the place in it come apart:
// a line that is built apart from the buffer and copied when it is whole takes several times as long.
ghost use Rattle.std.specs.Prelude.{◌≡◌, ◌+◌, ◌^◌, ◌<◌, ◌≤◌, ◌∷◌, length};
ghost use Rattle.std.specs.Fmt.{decimal};
ghost use Rattle.script_writer.specs.Writer.{Puts};

use itoa::write_digits;
use thiserror::Error;

/// How many bytes stand free where a line is written; no line has more, byte 10 included.
pub const LINE_ROOM: usize = 64;

/// Fewer than `LINE_ROOM` bytes stand where a line was to be written.
#[derive(Clone, Copy, PartialEq, Eq, Debug, Error)]
#[error("no room for a line")]
pub struct NoRoom;

// A text, and the place behind it.
pub fn put_text(out: &mut [u8], at: usize, text: &[u8]) -> usize
    requires { at + length text.now ≤ length out.old }
    ensures { Puts out.old at text.now out.new result }
{
    let end = at + text.len();
    out[at..end].copy_from_slice(text);
    end
}

// How many digits a number has.
fn width(n: u64) -> usize
    ensures { result ≡ length (decimal n) }
{
    let mut count = 1;
    let mut rest = n;
    while rest >= 10 {
        rest /= 10;
        count += 1;
    }
    count
}

// The digits of a number.
fn put_digits(out: &mut [u8], at: usize, n: u64) -> usize
    requires { at + 20 ≤ length out.old }
    ensures { Puts out.old at (decimal n) out.new result }
{
    let end = at + width(n);
    write_digits(n, out, end);
    end
}

// A number of at most `DIGITS` digits, behind a space.
pub fn put_number<const DIGITS: usize>(out: &mut [u8], at: usize, n: u64) -> usize
    requires room { at + 21 ≤ length out.old }
    requires small { n < 10 ^ DIGITS }
    requires some { 0 < DIGITS }
    ensures put { Puts out.old at (32 ∷ decimal n) out.new result }
    ensures short { result ≤ at + 1 + DIGITS }
{
    let digits = put_text(out, at, b" ");
    put_digits(out, digits, n)
}

// Numbers as a script writes them: digits with no leading zero, and a minus sign exactly where one is negative.
ghost use Rattle.std.specs.Prelude.{◌≡◌, ℕ, List, Option, Some};
ghost use Rattle.calls.specs.Numbers.{NumbersReadBack, onward, natural_of, integer_of, minus};

fn digits_value(text: &[u8]) -> Option<u32>
    ensures { result ≡ onward 0 text.now }
{
    let mut value: u32 = 0;
    for byte in text {
        if !byte.is_ascii_digit() {
            return None;
        }
        value = value.checked_mul(10)?.checked_add(u32::from(*byte - b'0'))?;
    }
    Some(value)
}

/// The number that the digits of `text` write, up to 4,294,967,295.
pub fn natural(text: &[u8]) -> Option<u32>
    ensures { result ≡ natural_of text.now }
{
    match text {
        // There is a byte, and no zero in front of another.
        [] | [b'0', _, ..] => None,
        _ => digits_value(text),
    }
}

/// The number that `text` writes, from -2,147,483,648 to 2,147,483,647.
pub fn integer(text: &[u8]) -> Option<i32>
    ensures { result ≡ integer_of text.now }
{
    match text {
        [b'-', digits @ ..] => negative(natural(digits)?),
        _ => i32::try_from(natural(text)?).ok(),
    }
}

// There is no minus sign before 0.
fn negative(size: u32) -> Option<i32>
    ensures { result ≡ minus (Some size) }
{
    if size == 0 {
        None
    } else {
        i32::try_from(-i64::from(size)).ok()
    }
}

/// A type of numbers that a word of a script can write.
pub(crate) trait Numeral: Sized {
    ghost written: { List ℕ → Option Self };

    // The number that `text` writes.
    fn read(text: &[u8]) -> Option<Self>
        ensures { result ≡ written text.now };
}

impl Numeral for u32 {
    ghost written = { natural_of };

    fn read(text: &[u8]) -> Option<u32> {
        natural(text)
    }
}

impl Numeral for i32 {
    ghost written = { integer_of };

    fn read(text: &[u8]) -> Option<i32> {
        integer(text)
    }
}

/// Reading undoes writing: the digits of a number in range, behind a minus sign where it is negative, are read as it, and
/// no other bytes are.
pub fn numbers_are_read_back()
    ensures { NumbersReadBack }
{}

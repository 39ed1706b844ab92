// Where a line or a word ends.
ghost use Rattle.std.specs.Prelude.{◌≡◌, position};
ghost use Rattle.script_reader.specs.Lines.{is_byte, CutsAt};

// The place of the first byte `stop`.
fn position_of(bytes: &[u8], stop: u8) -> Option<usize>
    ensures { result ≡ position (is_byte stop) bytes.now }
{
    bytes.iter().position(|b| *b == stop)
}

// What stands before the first byte `stop`, and what stands behind it if there is one.
pub(crate) fn cut_at(bytes: &[u8], stop: u8) -> (&[u8], Option<&[u8]>)
    ensures { CutsAt stop bytes.now result.0.now result.1 }
{
    // `map_or` would put the longer arm into a closure.
    match position_of(bytes, stop) {
        Some(end) => (&bytes[..end], Some(&bytes[end + 1..])),
        None => (bytes, None),
    }
}

//! Counting a car's pairs.

ghost use Rattle.std.specs.Prelude.{◌≡◌};
ghost use Rattle.remembered.specs.Updates.{pairs_of};

use crate::RememberedSet;

/// How many pairs of a car a set has, found by `next` alone.
pub fn pairs<R: RememberedSet>(rset: &R, car: u32) -> u32
    ensures { result ≡ pairs_of (R.has rset.now) car }
{
    let mut n: u32 = 0;
    let mut from: u32 = 0;
    // Each answer is where the next question begins, so a loop reads plainer than a chain of `successors`.
    while let Some(address) = rset.next(car, from) {
        n += 1;
        from = address + 1;
    }
    n
}

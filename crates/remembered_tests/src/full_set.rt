//! A set of another maker, which shows the facts only: it has every pair from the start and keeps them all.

ghost use Rattle.std.specs.Prelude.{◌≡◌};
ghost use Rattle.remembered.specs.Laws.{in_range};
ghost use Rattle.remembered.specs.RangeLaws.{range_parts};

use crate::is_in_range;
use remembered::RememberedSet;

/// Every car below 64 is paired with every address below 8,192, whatever is noted or forgotten.
#[derive(Clone, Copy, Debug, Default, PartialEq, Eq)]
pub struct FullSet;

impl RememberedSet for FullSet {
    ghost has = { λ _ c a. in_range c a };

    ghost bounded = { λ _ c a h. range_parts c a h };

    fn note(&mut self, _car: u32, _address: u32) {}

    fn next(&self, car: u32, from: u32) -> Option<u32> {
        if is_in_range(car, from) {
            return Some(from);
        }
        None
    }

    fn forget(&mut self, _car: u32) {}
}

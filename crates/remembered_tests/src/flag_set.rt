//! A set of another maker, which shows the facts only: a flag for each car.

ghost use Rattle.std.specs.Prelude.{◌≡◌, ◌<◌, ◌&&◌, List, false, length, slice_index_or};
ghost use Rattle.remembered.specs.Laws.{in_range, HasNone, Keeps};
ghost use Rattle.remembered.specs.Leads.{Leads};
ghost use Rattle.remembered.specs.RangeLaws.{range_parts};
ghost use Rattle.remembered.specs.Updates.{Updates, still_noted};
ghost use Rattle.std.proofs.lemmas.Bool.{and_parts};

use crate::{CARS, is_in_range};
use remembered::RememberedSet;
use remembered::laws::overlooks_nothing;

/// A car with a flag is paired with every address, another with none. A note sets the flag and a forget clears it.
#[derive(Drop)]
pub struct FlagSet {
    flags: [bool; CARS as usize],
    ghost full: { length flags ≡ 64 },
}

impl FlagSet {
    /// A set with no pair.
    pub fn new() -> FlagSet
        ensures { HasNone (⟦<FlagSet as RememberedSet>⟧.has result) }
    {
        FlagSet {
            flags: [false; CARS as usize],
        }
    }
}

impl RememberedSet for FlagSet {
    ghost has = { λ s c a. in_range c a && slice_index_or s.flags c false };

    ghost bounded = { λ s c a h. range_parts c a (and_parts (in_range c a) _ h).0 };

    fn note(&mut self, car: u32, _address: u32) {
        if car < CARS {
            self.flags[car as usize] = true;
        }
    }

    fn next(&self, car: u32, from: u32) -> Option<u32> {
        if is_in_range(car, from) && self.flags[car as usize] {
            return Some(from);
        }
        None
    }

    fn forget(&mut self, car: u32) {
        if car < CARS {
            self.flags[car as usize] = false;
        }
    }
}

/// A flag set has each pair that it had at first or that was noted in range, but for those whose car was forgotten since.
pub fn flags_overlook_nothing()
    ensures { (s t : FlagSet) (updates : Updates) → Leads ⟦<FlagSet as RememberedSet>⟧.has ⟦<FlagSet as RememberedSet>⟧.says s updates t → Keeps (still_noted (⟦<FlagSet as RememberedSet>⟧.has s) updates) (⟦<FlagSet as RememberedSet>⟧.has t) }
{
    overlooks_nothing::<FlagSet>();
}

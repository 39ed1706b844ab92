//! Noting a slot in a remembered set.

ghost use Rattle.std.specs.Prelude.{[]};
ghost use Rattle.model.specs.Notes.{tell};
ghost use Rattle.remembered.specs.Leads.{Leads};
ghost use Rattle.memory.specs.Noting.{noted_at};

use remembered::RememberedSet;
use trains::{CAR_WORDS, Trains};

/// Notes a slot, which holds the object at `target` or nothing, if its car is a later one than the object's.
pub fn note_later<R: RememberedSet>(trains: &Trains, set: &mut R, slot: u32, target: u32)
    ensures { Leads R.has R.says set.old (tell (noted_at trains.now.trains slot target) []) set.new }
{
    let (car, earlier) = (slot / CAR_WORDS, target / CAR_WORDS);
    if trains.is_later(car, earlier) {
        set.note(earlier, slot);
    }
}

//! Noting slots for the cars of the objects that they hold, where these are earlier cars.

ghost use Rattle.std.specs.Prelude.{◌≡◌, ℕ, ◌<◌, reverse};
ghost use Rattle.std.specs.List.{AllByRecursion};
ghost use Rattle.remembered.specs.Leads.{Leads};
ghost use Rattle.moves.specs.Fixes.{references, moved_references};
ghost use Rattle.moves.specs.Noting.{noted_at, noted_each};

use crate::CAR_WORDS;
use claims::Claims;
use layout::Layout;
use remembered::RememberedSet;
use trains::Trains;

/// Notes the slot at an address for the car of what it holds, if it stands in a later car. One that holds nothing is not noted.
pub fn note_slot<R: RememberedSet>(set: &mut R, words: &[u32; 8192], trains: &Trains, address: u32)
    requires { address < 8192 }
    ensures { Leads R.has R.says set.old (reverse (noted_at trains.now.trains words.now address)) set.new }
{
    let car = words[address as usize] / CAR_WORDS;
    if trains.is_later(address / CAR_WORDS, car) {
        set.note(car, address);
    }
}

/// Notes each of these slots that has to be noted, in order.
pub fn note_slots<R: RememberedSet>(
    set: &mut R,
    words: &[u32; 8192],
    trains: &Trains,
    slots: &[u32],
)
    requires { AllByRecursion (λ a. a < 8192) slots.now }
    ensures { Leads R.has R.says set.old (reverse (noted_each trains.now.trains words.now slots.now)) set.new }
{
    for slot in slots {
        note_slot(set, words, trains, *slot);
    }
}

// Notes the references of an object that stands at an address now, by their numbers; the header tells of them.
fn note_object<L: Layout, R: RememberedSet>(
    set: &mut R,
    words: &[u32; 8192],
    trains: &Trains,
    header: u32,
    object: u32,
)
    requires { AllByRecursion (λ a. a < 8192) (references (L.decoded header) object) }
    ensures { Leads R.has R.says set.old (reverse (noted_each trains.now.trains words.now (references (L.decoded header) object))) set.new }
{
    for i in 0..L::references(header) {
        if let Some(offset) = L::reference_offset(header, i) {
            note_slot(set, words, trains, object + offset);
        }
    }
}

/// Notes the references of all claimed objects, which were moved: in the order of the claims, and those of one object by
/// their numbers. An object's header is read where it stood.
pub fn note_moved<L: Layout, R: RememberedSet>(
    set: &mut R,
    words: &[u32; 8192],
    trains: &Trains,
    forward: &[u32; 128],
    car: u32,
    claims: &Claims,
)
    requires car { car < 64 }
    requires inside { AllByRecursion (λ a. a < 8192) (moved_references L.decoded words.now forward.now car claims.now) }
    ensures { Leads R.has R.says set.old (reverse (noted_each trains.now.trains words.now (moved_references L.decoded words.now forward.now car claims.now))) set.new }
{
    for claim in claims.as_slice() {
        let header = words[(CAR_WORDS * car + claim.place) as usize];
        note_object::<L, R>(set, words, trains, header, forward[claim.place as usize]);
    }
}

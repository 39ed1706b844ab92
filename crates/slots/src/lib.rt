//! The slots that a step has to look at, found by a remembered set's pairs.
#![tactic(auto)]

ghost use Rattle.std.specs.Prelude.{◌≡◌, ℕ, ◌+◌, ◌*◌, ◌<◌, ◌≤◌, ◌++◌, length};
ghost use Rattle.arrayvec.specs.ArrayVec.{array_vec_len};
ghost use Rattle.model.specs.Notes.{object_slots};
ghost use Rattle.model.specs.Remembered.{slots_into};
ghost use Rattle.model.specs.Trains.{Car, car_words, words_of};
ghost use Rattle.objects.specs.Lies.{CarStands};
ghost use Rattle.slots.specs.Slots.{addresses, AddressTells, ArePaired};

pub mod survey;
pub mod walk;

use arrayvec::ArrayVec;
use layout::Layout;
use remembered::RememberedSet;
use walk::Walk;

/// How many words a car has.
pub(crate) const CAR_WORDS: u32 = 128;

/// Appends the addresses of a car's slots that hold an object of the emptied car, by rising address. So many words of the
/// car are filled. A pair whose address is that of no slot, or of one that holds something else, is passed over. Asked of
/// the emptied car itself it gives that car's own slots.
pub fn gather<R: RememberedSet, L: Layout>(
    out: &mut ArrayVec<u32, 8192>,
    words: &[u32; 8192],
    set: &R,
    emptied: u32,
    car: u32,
    filled: u32,
)
    requires emptied { emptied < 64 }
    requires car { car < 64 }
    requires filled { filled ≤ 128 }
    requires room { array_vec_len out.old + 128 ≤ 8192 }
    ensures slots { (at : ℕ → ℕ) (f d : Car) (n : ℕ) → AddressTells at f → f.number ≡ emptied → d.number ≡ car → words_of d.objects ≡ filled
        → CarStands L.table L.code at words.now d → ArePaired (R.has set.now) f (object_slots L.table n (car_words * d.number) d.objects)
        → out.new.items ≡ out.old.items ++ addresses (slots_into f (object_slots L.table n (car_words * d.number) d.objects)) }
    ensures few { array_vec_len out.new ≤ array_vec_len out.old + filled }
{
    let end = CAR_WORDS * car + filled;
    let mut walk = Walk::over(car, filled);
    let mut from = CAR_WORDS * car;
    while let Some(address) = set.next(emptied, from) {
        if address >= end {
            break;
        }
        if walk.is_slot_into::<L>(words, address, emptied) {
            out.push(address);
        }
        from = address + 1;
    }
}

//! Walking a car from header to header.

ghost use Rattle.std.specs.Prelude.{◌≡◌, ℕ, ◌*◌, ◌<◌, ◌≤◌, ◌/◌, ◌==◌, ◌&&◌};
ghost use Rattle.layout.specs.ShapeTable.{ShapeTable};
ghost use Rattle.model.specs.Notes.{object_slots};
ghost use Rattle.model.specs.Remembered.{slots_into};
ghost use Rattle.model.specs.Trains.{Car, car_words, words_of, one_of};
ghost use Rattle.objects.specs.Lies.{CarStands};
ghost use Rattle.slots.specs.Slots.{addresses, AddressTells};

use crate::CAR_WORDS;
use layout::Layout;

/// Where a walk over a car stands: at the header of an object, or behind the last object. It goes on, and never back, so
/// that a car is walked once for addresses that rise.
#[derive(Clone, Copy)]
pub struct Walk {
    object: u32,
    end: u32,
    ghost inside: { end ≤ 8192 },
}

impl Walk {
    ghost use Rattle.slots.specs.Walks.{WalksIn};

    /// A walk that stands at a car's first word. The car has so many words filled.
    pub fn over(car: u32, filled: u32) -> Walk
        requires car { car < 64 }
        requires filled { filled ≤ 128 }
        ensures { (c : Car) → c.number ≡ car → words_of c.objects ≡ filled → WalksIn c (car_words * car) result }
    {
        Walk {
            object: CAR_WORDS * car,
            end: CAR_WORDS * car + filled,
        }
    }

    /// Whether a reference stands at the address, in an object of the car. It is asked of addresses that rise from call to
    /// call.
    pub fn is_slot<L: Layout>(&mut self, words: &[u32; 8192], address: u32) -> bool
        ensures slot { (at : ℕ → ℕ) (c : Car) (n from : ℕ) → CarStands L.table L.code at words.now c → WalksIn c from self.old → from ≤ address
            → result ≡ one_of address (addresses (object_slots L.table n (car_words * c.number) c.objects)) }
        ensures walks { (at : ℕ → ℕ) (c : Car) (from : ℕ) → CarStands L.table L.code at words.now c → WalksIn c from self.old → from ≤ address
            → WalksIn c address self.new }
    {
        let end = self.end.min(address);
        while self.object < end {
            let header = words[self.object as usize];
            let size = L::size(header);
            let offset = address - self.object;
            if offset < size {
                return L::reference_at(header, offset).is_some();
            }
            self.object += size;
        }
        false
    }

    /// Whether a reference stands at the address, in an object of the car, that holds an object of the car `held`.
    pub fn is_slot_into<L: Layout>(&mut self, words: &[u32; 8192], address: u32, held: u32) -> bool
        requires address { address < 8192 }
        requires held { held < 64 }
        ensures slot { (at : ℕ → ℕ) (f c : Car) (n from : ℕ) → AddressTells at f → f.number ≡ held → CarStands L.table L.code at words.now c
            → WalksIn c from self.old → from ≤ address
            → result ≡ one_of address (addresses (slots_into f (object_slots L.table n (car_words * c.number) c.objects))) }
        ensures walks { (at : ℕ → ℕ) (c : Car) (from : ℕ) → CarStands L.table L.code at words.now c → WalksIn c from self.old → from ≤ address
            → WalksIn c address self.new }
    {
        words[address as usize] / CAR_WORDS == held && self.is_slot::<L>(words, address)
    }
}

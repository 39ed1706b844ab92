//! Remembered sets: which addresses may hold slots that hold objects of which car.

#![tactic(auto)]

ghost use Rattle.std.specs.Prelude.{◌≡◌, ℕ, ◌<◌, Bool, true, nat_lt};
ghost use Rattle.remembered.specs.Laws.{in_range, Keeps, KeepsOthers, Least};
ghost use Rattle.remembered.specs.declared.Update.{Update};

mod bit_row;
pub mod buffered;
pub mod card;
pub mod count;
pub mod exact;
pub mod laws;
pub mod slot;

/// A car, and the address of a slot.
#[derive(Clone, Copy, Debug, Default, PartialEq, Eq)]
pub struct Pair {
    pub car: u32,
    pub address: u32,
}

/// What a set is told.
#[derive(Clone, Copy, Debug, PartialEq, Eq)]
pub enum Update {
    /// That a pair of a car and an address is to be had.
    Note { car: u32, address: u32 },
    /// That the pairs of a car may go.
    Forget { car: u32 },
}

/// How many cars there are.
pub(crate) const CARS: usize = 64;

/// How many addresses there are.
pub(crate) const ADDRESSES: u32 = 8192;

// Whether a car and an address can be paired. Both are handed on as they come in, and a `Pair` is made only where one is
// held. They are `u32`; `usize` has no `From<u32>`, so an index is made of them by `as`, here and in the sets, and a number
// that is known to be small goes back by `as`.
fn is_in_range(car: u32, address: u32) -> bool
    ensures { result ≡ in_range car address }
{
    is_car(car) && address < ADDRESSES
}

// Whether there is a car of that number.
fn is_car(car: u32) -> bool
    ensures { result ≡ nat_lt car 64 }
{
    (car as usize) < CARS
}

/// A set of pairs of a car below 64 and an address below 8,192. It shows which pairs it has, and what each call keeps of
/// them; it may have more than it was told. How a set is made is its own affair: one may come with pairs. A car stands by
/// itself in these functions, since `next` and `forget` take no address of a pair.
pub trait RememberedSet {
    // Whether the set has the pair of a car and an address.
    ghost has: { Self → ℕ → ℕ → Bool };

    // What a set says of an update beyond that, by itself before and after. It need not say anything.
    ghost says: { Self → Update → Self → Type 0 } = { λ _ _ _. Unit {0} };

    /// Adds a pair, perhaps more; a pair out of range is never there.
    fn note(&mut self, car: u32, address: u32)
        ensures keeps { Keeps (has self.old) (has self.new) }
        ensures gains { car < 64 → address < 8192 → has self.new car address ≡ true }
        ensures besides { says self.old (Update.Note car address) self.new };

    /// The least address, at or above `from`, that is paired with the car.
    fn next(&self, car: u32, from: u32) -> Option<u32>
        ensures { Least (has self.now car) from result };

    /// Drops pairs of a car, and of no other.
    fn forget(&mut self, car: u32)
        ensures others { KeepsOthers car (has self.old) (has self.new) }
        ensures besides { says self.old (Update.Forget car) self.new };

    // Cars below 64 and addresses below 8,192 only, even where others were noted.
    ghost bounded: { (s : Self) (c a : ℕ) → has s c a ≡ true → (c < 64) × (a < 8192) };
}

//! The slot set: up to 2,048 pairs, and the cars that overflowed when it was full.

ghost use Rattle.std.specs.Prelude.{◌≡◌, ℕ, ◌+◌, ◌-◌, ◌*◌, ◌<◌, ◌≤◌, true, false, not, ◌&&◌, ◌||◌, ◌==◌, nat_lt, ◌↔◌, IsTrue};
ghost use Rattle.remembered.specs.BitRow.{bit_in, Marked};
ghost use Rattle.remembered.specs.Laws.{new_in, HasNone, Least};
ghost use Rattle.remembered.specs.SlotCars.{kept_count, places};
ghost use Rattle.remembered.specs.Slots.{slot_has, slot_pairs, is_over, KeepsPair, OverflowsCar, SlotForgot, SlotSays};
ghost use Rattle.remembered.specs.SlotLaws.{slot_exact};
ghost use Rattle.std.proofs.Common.{rules};

use crate::bit_row::BitRow;
use crate::exact::ExactSet;
use crate::{CARS, RememberedSet, is_car, is_in_range};
use std::marker::Model;

// How many words of 64 bits hold a bit for each address.
const WORDS: usize = 128;

// How many pairs a slot set keeps.
const PLACES: u32 = 2048;

// The pairs of one car. The count tells at once how many places the car gives back.
#[derive(Clone, Copy)]
struct CarPairs {
    kept: BitRow<WORDS>,
    overflown: bool,
    count: u32,
}

impl Model for CarPairs {
    ghost use Rattle.std.specs.Prelude.{◌≡◌};
    ghost use Rattle.remembered.specs.SlotCars.{Car, kept_count};

    ghost Value = { Car };

    ghost view = { λ p. record { kept = p.kept; overflown = p.overflown } };

    ghost invariant = { λ p. p.count ≡ kept_count p.kept };

    ghost inverse = { λ v. record { kept = v.kept; overflown = v.overflown; count = kept_count v.kept } };

    ghost use Rattle.std.proofs.Common.{sym};

    ghost inverse_ok = { λ p h i. record { kept = p.kept; overflown = p.overflown; count = sym h i } };
}

// An address that these functions take is in range by `requires`: the set has asked, where a call came in.
impl CarPairs {
    // No pair is kept, and the car is not overflown.
    fn none() -> CarPairs
        ensures kept { (a : ℕ) → bit_in result.kept a ≡ false }
        ensures over { result.overflown ≡ false }
    {
        CarPairs {
            kept: BitRow::none(),
            overflown: false,
            count: 0,
        }
    }

    // Whether a new pair of the car found the set full.
    fn is_overflown(&self) -> bool
        ensures { result ≡ self.now.overflown }
    {
        self.overflown
    }

    // Whether the pair with the address is not in the set.
    fn lacks(&self, address: u32) -> bool
        requires { address < 8192 }
        ensures { result ≡ not (self.now.overflown || bit_in self.now.kept address) }
    {
        !self.overflown && !self.kept.has(address)
    }

    // Keeps an address.
    fn keep(&mut self, address: u32)
        requires address { address < 8192 }
        requires new { bit_in self.old.kept address ≡ false }
        ensures kept { Marked self.old.kept address self.new.kept }
        ensures over { self.new.overflown ≡ self.old.overflown }
    {
        self.kept.mark(address);
        self.count += 1;
    }

    // The car overflows.
    fn overflow(&mut self)
        ensures kept { self.new.kept ≡ self.old.kept }
        ensures over { self.new.overflown ≡ true }
    {
        self.overflown = true;
    }

    // Drops all pairs of the car, and says how many places it gives back.
    fn free(&mut self) -> u32
        ensures kept { (a : ℕ) → bit_in self.new.kept a ≡ false }
        ensures over { self.new.overflown ≡ false }
        ensures count { result ≡ kept_count self.old.kept }
    {
        let count = self.count;
        self.kept = BitRow::none();
        self.overflown = false;
        self.count = 0;
        count
    }

    // The least address, at or above `from`, that the set pairs with the car.
    fn next(&self, from: u32) -> Option<u32>
        requires { from < 8192 }
        ensures { Least (λ a. nat_lt a 8192 && (self.now.overflown || bit_in self.now.kept a)) from result }
    {
        if self.overflown {
            return Some(from);
        }
        self.kept.next(from)
    }
}

/// The pairs of each car, and how many places they use.
#[derive(Drop)]
pub struct SlotSet {
    cars: [CarPairs; CARS],
    used: u32,
}

impl Model for SlotSet {
    ghost use Rattle.std.specs.Prelude.{List};
    ghost use Rattle.remembered.specs.SlotCars.{Car, IsTallied};

    ghost Value = { List Car };

    ghost view = { λ s. s.cars };

    ghost invariant = { λ s. IsTallied s.cars s.used };
}

impl SlotSet {
    /// A set with no pair.
    pub fn new() -> SlotSet
        ensures pairs { HasNone (⟦<SlotSet as RememberedSet>⟧.has result) }
        ensures places { places result ≡ 0 }
    {
        SlotSet {
            cars: [CarPairs::none(); CARS],
            used: 0,
        }
    }

    /// How many of the 2,048 places are in use.
    pub fn in_use(&self) -> usize
        ensures value { result ≡ places self.now }
        ensures fits { result ≤ 2048 }
    {
        self.used as usize
    }

    /// Whether a new pair of the car found the set full, and the car was not forgotten since.
    pub fn is_overflown(&self, car: u32) -> bool
        ensures over { result ≡ is_over self.now car }
        ensures all { IsTrue result ↔ ((address : ℕ) → address < 8192 → ⟦<SlotSet as RememberedSet>⟧.has self.now car address ≡ true) }
    {
        is_car(car) && self.cars[car as usize].is_overflown()
    }

    // Whether the pair could be in the set and is not.
    fn lacks(&self, car: u32, address: u32) -> bool
        ensures { result ≡ new_in (slot_pairs self.now) car address }
    {
        is_in_range(car, address) && self.cars[car as usize].lacks(address)
    }

    // Keeps a pair.
    fn keep(&mut self, car: u32, address: u32)
        requires new { new_in (slot_pairs self.old) car address ≡ true }
        requires room { places self.old < 2048 }
        ensures { KeepsPair self.old car address self.new }
    {
        self.cars[car as usize].keep(address);
        self.used += 1;
    }

    // Makes a car overflow. There is a car of that number by `requires` here and below, since the call has asked.
    fn overflow(&mut self, car: u32)
        requires { car < 64 }
        ensures { OverflowsCar self.old car self.new }
    {
        self.cars[car as usize].overflow();
    }

    // Frees the places of a car.
    fn free(&mut self, car: u32)
        requires { car < 64 }
        ensures { SlotForgot self.old car self.new }
    {
        self.used -= self.cars[car as usize].free();
    }
}

impl RememberedSet for SlotSet {
    ghost has = { slot_pairs };

    ghost says = { SlotSays };

    ghost bounded = { Prim.search rules };

    fn note(&mut self, car: u32, address: u32) {
        if !self.lacks(car, address) {
            return;
        }
        if self.used < PLACES {
            self.keep(car, address);
        } else {
            self.overflow(car);
        }
    }

    fn next(&self, car: u32, from: u32) -> Option<u32> {
        if !is_in_range(car, from) {
            return None;
        }
        self.cars[car as usize].next(from)
    }

    fn forget(&mut self, car: u32) {
        if is_car(car) {
            self.free(car);
        }
    }
}

impl ExactSet for SlotSet {
    ghost means = { slot_has };

    ghost exact = { slot_exact };
}

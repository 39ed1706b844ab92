//! The card set: a mark for each car and each card, that is 16 addresses that lie side by side; memory has 512 cards.

ghost use Rattle.std.specs.Prelude.{◌≡◌, ◌/◌, ◌<◌};
ghost use Rattle.remembered.specs.Cards.{card_has, marked, CardSays};
ghost use Rattle.remembered.specs.CardLaws.{card_exact};
ghost use Rattle.remembered.specs.Laws.{new_in, HasNone};
ghost use Rattle.std.proofs.Common.{rules};

use crate::bit_row::BitRow;
use crate::exact::ExactSet;
use crate::{CARS, RememberedSet, is_car, is_in_range};

// How many addresses a card has.
const CARD: u32 = 16;

// How many words of 64 bits hold a bit for each card.
const CARD_WORDS: usize = 8;

/// A row for each car, with a bit for each card.
#[derive(Drop)]
pub struct CardSet {
    cars: [BitRow<CARD_WORDS>; CARS],
}

impl CardSet {
    /// A set with no pair.
    pub fn new() -> CardSet
        ensures { HasNone (⟦<CardSet as RememberedSet>⟧.has result) }
    {
        let row = BitRow::none();
        CardSet { cars: [row; CARS] }
    }

    // Whether the pair could be in the set and is not.
    fn lacks(&self, car: u32, address: u32) -> bool
        ensures { result ≡ new_in (marked self.now.cars) car address }
    {
        is_in_range(car, address) && !self.cars[car as usize].has(address / CARD)
    }
}

impl RememberedSet for CardSet {
    ghost has = { λ s. marked s.cars };

    ghost says = { λ s u t. CardSays s.cars u t.cars };

    ghost bounded = { Prim.search rules };

    fn note(&mut self, car: u32, address: u32) {
        if self.lacks(car, address) {
            self.cars[car as usize].mark(address / CARD);
        }
    }

    fn next(&self, car: u32, from: u32) -> Option<u32> {
        if !is_in_range(car, from) {
            return None;
        }
        let card = self.cars[car as usize].next(from / CARD);
        card.map(|card| from.max(CARD * card))
    }

    fn forget(&mut self, car: u32) {
        if is_car(car) {
            self.cars[car as usize] = BitRow::none();
        }
    }
}

impl ExactSet for CardSet {
    ghost means = { card_has };

    ghost exact = { card_exact (λ s. s.cars) };
}

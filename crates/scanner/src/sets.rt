// Remembered sets by their meaning: plain sets of pairs of a car and an address.
use crate::failure::Failure;
use crate::trains::CARS;
use std::alloc::Global;
use std::collections::BTreeSet;

const ADDRESSES: usize = 8192;

const CARD_WORDS: usize = 16;

const SLOT_PLACES: usize = 2048;

const BUFFER_PLACES: usize = 16;

/// Which remembered set a play uses.
#[derive(Clone, Copy)]
pub enum Choice {
    /// Single slots, up to 2,048.
    Slots,
    /// Cards of 16 addresses.
    Cards,
    /// Slots behind a buffer of 16 pairs.
    BufferedSlots,
    /// Cards behind a buffer of 16 pairs.
    BufferedCards,
}

/// A car's number, below 64, with an address, below 8,192. A pair out of these ranges is in no set.
#[derive(Clone, Copy, PartialEq, Eq, PartialOrd, Ord)]
pub struct Pair {
    pub car: usize,
    pub address: usize,
}

impl Pair {
    fn is_in_range(self) -> bool {
        self.car < CARS && self.address < ADDRESSES
    }
}

// The set that has what went through the buffer, or all pairs where there is no buffer.
#[derive(Drop)]
enum Below {
    // A car is paired with every address, and overflown, once it has a pair for which there was no place.
    Slots {
        pairs: BTreeSet<Pair>,
        overflown: BTreeSet<usize>,
    },
    // With a pair go all pairs of the same card.
    Cards {
        pairs: BTreeSet<Pair>,
    },
}

impl Below {
    fn has(&self, pair: Pair) -> bool {
        match self {
            Below::Slots { pairs, overflown } => {
                overflown.contains(&pair.car) || pairs.contains(&pair)
            }
            Below::Cards { pairs } => pairs.contains(&pair),
        }
    }

    fn note(&mut self, pair: Pair) -> Result<(), Failure> {
        if self.has(pair) {
            return Ok(());
        }
        match self {
            Below::Slots { pairs, overflown } => {
                if pairs.len() < SLOT_PLACES {
                    pairs.insert(pair)?;
                } else {
                    overflown.insert(pair.car)?;
                }
            }
            Below::Cards { pairs } => mark_card(pairs, pair)?,
        }
        Ok(())
    }

    fn forget(&mut self, car: usize) {
        match self {
            Below::Slots { pairs, overflown } => {
                pairs.retain(|pair| pair.car != car);
                overflown.remove(&car);
            }
            Below::Cards { pairs } => pairs.retain(|pair| pair.car != car),
        }
    }

    fn count(&self, car: usize) -> usize {
        match self {
            Below::Slots { overflown, .. } if overflown.contains(&car) => ADDRESSES,
            Below::Slots { pairs, .. } | Below::Cards { pairs } => {
                pairs.iter().filter(|pair| pair.car == car).count()
            }
        }
    }
}

fn mark_card(pairs: &mut BTreeSet<Pair>, pair: Pair) -> Result<(), Failure> {
    let first = pair.address / CARD_WORDS * CARD_WORDS;
    let addresses = first..first.saturating_add(CARD_WORDS);
    pairs.extend(addresses.map(|address| Pair { address, ..pair }))?;
    Ok(())
}

/// A remembered set: which cars are paired with which addresses.
#[derive(Drop)]
pub struct Remembered {
    below: Below,
    // What the buffer holds, in the order of coming; none where the choice has no buffer.
    buffer: Option<Vec<Pair>>,
}

impl Remembered {
    /// The set of that choice with no pair.
    pub fn new(heap: Global, choice: Choice) -> Remembered {
        let below = match choice {
            Choice::Slots | Choice::BufferedSlots => Below::Slots {
                pairs: BTreeSet::new(heap),
                overflown: BTreeSet::new(heap),
            },
            Choice::Cards | Choice::BufferedCards => Below::Cards {
                pairs: BTreeSet::new(heap),
            },
        };
        let buffer = match choice {
            Choice::Slots | Choice::Cards => None,
            Choice::BufferedSlots | Choice::BufferedCards => Some(Vec::new(heap)),
        };
        Remembered { below, buffer }
    }

    /// Says whether the set has this pair.
    pub fn has(&self, pair: Pair) -> bool {
        pair.is_in_range() && (self.below.has(pair) || self.holds(pair))
    }

    fn holds(&self, pair: Pair) -> bool {
        self.buffer
            .as_ref()
            .is_some_and(|held| held.contains(&pair))
    }

    /// Adds a pair that is in range, if the set does not have it, and what the choice adds with it. A full buffer is
    /// first sent down.
    pub fn note(&mut self, pair: Pair) -> Result<(), Failure> {
        if !pair.is_in_range() || self.has(pair) {
            return Ok(());
        }
        let Some(held) = &mut self.buffer else {
            return self.below.note(pair);
        };
        if held.len() >= BUFFER_PLACES {
            for sent in held.iter() {
                self.below.note(*sent)?;
            }
            held.clear();
        }
        held.push(pair)?;
        Ok(())
    }

    /// Takes away all pairs of this car.
    pub fn forget(&mut self, car: usize) {
        self.below.forget(car);
        if let Some(held) = &mut self.buffer {
            held.retain(|pair| pair.car != car);
        }
    }

    /// How many addresses are paired with this car.
    pub fn count(&self, car: usize) -> usize {
        self.below
            .count(car)
            .saturating_add(self.count_held_only(car))
    }

    // A held pair that the set below has as well counts once.
    fn count_held_only(&self, car: usize) -> usize {
        self.buffer.as_ref().map_or(0, |held| {
            held.iter()
                .filter(|pair| pair.car == car && !self.below.has(**pair))
                .count()
        })
    }
}

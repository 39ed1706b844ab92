//! Which objects of the car that is being emptied are claimed, in Cheney's order, and for which trains.
#![tactic(auto)]

ghost use Rattle.std.specs.Prelude.{◌≡◌, ℕ, ◌+◌, ◌-◌, ◌*◌, ◌<◌, ◌≤◌, [], ◌∷◌, ◌++◌, length, slice_index};
ghost use Rattle.std.specs.List.{All};
ghost use Rattle.claims.specs.Claimed.{ClaimsHeld};
ghost use Rattle.claims.specs.Words.{is_claimed, visited, ref_word, object_scanned, closed};

use arrayvec::ArrayVec;
use layout::Layout;
use std::marker::Model;

/// How many words a car has.
const CAR_WORDS: u32 = 128;

/// How many objects a car has at most, since each has two words or more.
const MOST_OBJECTS: usize = 64;

/// An object that is claimed: how many words behind the car's first word its header stands, and the rank of the train that
/// it goes to.
#[derive(Clone, Copy, Debug, Default, PartialEq, Eq)]
pub struct Claim {
    pub place: u32,
    pub rank: u32,
}

/// The claims of one car, in order.
#[derive(Drop)]
pub struct Claims {
    order: ArrayVec<Claim, MOST_OBJECTS>,
    claimed: [bool; CAR_WORDS as usize],
}

// Clauses see the claims in their order; which places are claimed follows from it.
impl Model for Claims {
    ghost use Rattle.std.specs.Prelude.{List};
    ghost use Rattle.claims.specs.declared.Claim.{Claim};
    ghost use Rattle.claims.specs.Marks.{MarksAre};

    ghost Value = { List Claim };

    ghost view = { λ c. c.order.items };

    ghost invariant = { λ c. MarksAre c.order.items c.claimed };
}

impl Claims {
    /// No claims.
    pub fn new() -> Self
        ensures { result ≡ [] }
    {
        Claims {
            order: ArrayVec::new(),
            claimed: [false; CAR_WORDS as usize],
        }
    }

    /// The claims in their order.
    pub fn as_slice(&self) -> &[Claim]
        ensures value { result.now ≡ self.now }
        ensures few { length result.now ≤ 64 }
        ensures inside { All (λ c. c.place < 128) result.now }
    {
        self.order.as_slice()
    }

    /// Whether the object is claimed whose header stands so many words behind the car's first word.
    pub fn is_claimed(&self, place: u32) -> bool
        requires { place < 128 }
        ensures { result ≡ is_claimed place self.now }
    {
        self.claimed[place as usize]
    }

    // Claims the object at a place.
    fn push(&mut self, claim: Claim)
        requires room { length self.old < 64 }
        requires place { claim.place < 128 }
        ensures { self.new ≡ self.old ++ (claim ∷ []) }
    {
        self.claimed[claim.place as usize] = true;
        self.order.push(claim);
    }

    // Claims the object that a word leads to, if it is in the car and is not claimed yet. Where the words are those of a car
    // the order has room here, since a car has at most 64 objects.
    fn visit(&mut self, car: u32, word: u32, rank: u32)
        ensures { self.new ≡ visited car rank word self.old }
    {
        let place = word % CAR_WORDS;
        if word / CAR_WORDS == car && !self.is_claimed(place) && !self.order.is_full() {
            self.push(Claim { place, rank });
        }
    }

    // The word of reference `i` of the object whose header stands at an address, if memory has it.
    fn reference<L: Layout>(words: &[u32; 8192], at: u32, i: u32) -> Option<u32>
        requires here { at < 8192 }
        requires known { i < (L.decoded (slice_index words.now at)).refs }
        ensures { result ≡ ref_word L.decoded words.now at i }
    {
        let offset = L::reference_offset(words[at as usize], i)?;
        words.get(at as usize + offset as usize).copied()
    }

    // Claims what the references of the object at a place of the car lead to, by number.
    #[tactic(auto, using(crate::proofs::Turns::scanned_turn), unfolding(crate::specs::Words::object_scanned))]
    fn scan<L: Layout>(&mut self, words: &[u32; 8192], car: u32, place: u32, rank: u32)
        requires car { car < 64 }
        requires place { place < 128 }
        ensures { self.new ≡ object_scanned L.decoded words.now car rank place self.old }
    {
        let at = CAR_WORDS * car + place;
        for i in 0..L::references(words[at as usize]) {
            if let Some(word) = Self::reference::<L>(words, at, i) {
                self.visit(car, word, rank);
            }
        }
    }

    // Scans the claimed objects in their order from the given one on, until all are scanned.
    #[tactic(auto, using(crate::proofs::Turns::closed_turn))]
    fn close<L: Layout>(&mut self, words: &[u32; 8192], car: u32, rank: u32, from: usize)
        requires { car < 64 }
        ensures { self.new ≡ closed L.decoded words.now car rank (64 - from) from self.old }
    {
        let mut next = from;
        while next < self.order.len() {
            let place = self.as_slice()[next].place;
            self.scan::<L>(words, car, place, rank);
            next += 1;
        }
    }

    /// Claims for a train what a word leads to: its object, if that is in the car and is not claimed yet, and then what the
    /// references of claimed objects hold in the car, and so on in the order of claiming.
    pub fn claim<L: Layout>(&mut self, words: &[u32; 8192], car: u32, word: u32, rank: u32)
        requires { car < 64 }
        ensures { ClaimsHeld L.table L.code words.now car rank word self.old self.new }
    {
        let from = self.order.len();
        self.visit(car, word, rank);
        self.close::<L>(words, car, rank, from);
    }
}

//! What is asked for from outside the first train.

ghost use Rattle.std.specs.Prelude.{◌≡◌, ℕ, ◌<◌, ◌∷◌, IfSome, length, find, option_map};
ghost use Rattle.remembered.specs.Laws.{Keeps};
ghost use Rattle.remembered.specs.Updates.{no_pairs, still_noted};
ghost use Rattle.model.specs.Calls.{History};
ghost use Rattle.model.specs.Trains.{Train, Trains as CarTrains, train_objects};
ghost use Rattle.model.specs.Space.{space_of, updates_of, looked as pairs_looked_at};
ghost use Rattle.model.specs.Step.{first_to, outside};
ghost use Rattle.memory.specs.Stands.{Stands, mark_at};
ghost use Rattle.steps.specs.Asked.{leads_to_first, first_asked, Remembers};

use crate::others::OtherCars;
use layout::Layout;
use memory::{Mark, Memory};
use remembered::RememberedSet;
use slots::survey::survey_train;
use trains::{CAR_WORDS, Trains};

/// What a step finds before it acts.
#[derive(Clone, Copy, Debug, PartialEq, Eq)]
pub(crate) struct Findings {
    /// What the first reference from outside holds, and the rank of the train to which it sends; none, if nothing outside the
    /// first train holds an object of it.
    pub first: Option<Mark>,
    /// How many pairs the cars of the first train have.
    pub looked: u32,
}

// The word of the first root that holds an object of the first train.
fn first_root(roots: &[u32; 32], trains: &Trains) -> Option<u32>
    ensures { result ≡ find (leads_to_first trains.now.trains) roots.now }
{
    for word in roots {
        if trains.rank(*word / CAR_WORDS) == 0 {
            return Some(*word);
        }
    }
    None
}

// What the first root that holds an object of the first train asks for, or else a slot at that address.
fn asked_first(memory: &Memory, slot: Option<u32>) -> Option<Mark>
    requires { IfSome slot (λ a. a < 8192) }
    ensures { result ≡ first_asked memory.now slot }
{
    if let Some(object) = first_root(&memory.roots, &memory.trains) {
        let rank = memory.trains.arrival();
        return Some(Mark { object, rank });
    }
    let address = slot?;
    let object = memory.words[address as usize];
    let rank = memory.trains.rank(address / CAR_WORDS);
    Some(Mark { object, rank })
}

/// Finds the first reference from outside the first train: roots come first, by their numbers, then slots of other trains, in
/// the order of the cars and then by address. Looks at each pair of the first train's cars, and counts them.
pub(crate) fn find_outside<R: RememberedSet, L: Layout>(memory: &Memory, set: &R) -> Findings
    requires known { Remembers L.table L.code (R.has set.now) memory.now }
    requires train { 0 < length memory.now.trains.trains }
    ensures first { (h : History) (t : Train) (ts : CarTrains) → Stands L.table L.code (space_of L.table h) memory.now
        → Keeps (still_noted no_pairs (updates_of L.table h)) (R.has set.now) → (space_of L.table h).trains ≡ t ∷ ts
        → result.first ≡ option_map (mark_at (t ∷ ts)) (first_to (train_objects t) (outside (space_of L.table h).roots (t ∷ ts) ts)) }
    ensures looked { (h : History) (t : Train) (ts : CarTrains) → Stands L.table L.code (space_of L.table h) memory.now → (space_of L.table h).trains ≡ t ∷ ts
        → result.looked ≡ pairs_looked_at (R.has set.now) t }
{
    let trains = &memory.trains;
    let found = survey_train::<R, L, OtherCars>(
        &memory.words,
        set,
        &OtherCars { trains },
        trains.train(0),
    );
    Findings {
        first: asked_first(memory, found.first),
        looked: found.looked,
    }
}

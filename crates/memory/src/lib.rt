//! The memory of a space, without its remembered set, and every call but the step.
#![tactic(auto)]

ghost use Rattle.std.specs.Prelude.{ℕ};
ghost use Rattle.calls.specs.declared.call.Call.TheVariants.{Tally};
ghost use Rattle.layout.specs.declared.Shape.{Shape};
ghost use Rattle.layout.specs.ShapeTable.{ShapeTable};
ghost use Rattle.model.specs.Space.{opening};

mod access;
mod find;
mod make;
mod noting;

use calls::Usage;
pub use noting::note_later;
use objects::NOTHING;
use std::marker::Model;
use trains::Trains;

/// How many roots there are.
pub const ROOTS: u32 = 32;

/// The mark: the address of an object of the first train, and the rank to which it is to go.
#[derive(Clone, Copy, Debug, PartialEq, Eq)]
pub struct Mark {
    pub object: u32,
    pub rank: u32,
}

/// Words, roots, trains, mark, and how many words are in use. The word of a root, as that of a reference, is the address of
/// the object that it holds, or `NOTHING`.
#[derive(Drop)]
pub struct Memory {
    pub words: [u32; 8192],
    pub roots: [u32; 32],
    pub trains: Trains,
    pub mark: Option<Mark>,
    pub used: u32,
}

impl Model for Memory {
    ghost use Rattle.std.specs.Prelude.{◌≡◌, length};
    ghost use Rattle.memory.specs.Heap.{Heap};

    ghost Value = { Heap };

    ghost view = { λ a. record { words = a.words; roots = a.roots; trains = a.trains; mark = a.mark; used = a.used } };

    ghost invariant = { λ a. (length a.words ≡ 8192) × (length a.roots ≡ 32) };
}

impl Memory {
    ghost use Rattle.memory.specs.Stands.{Stands, Continues};
    ghost use Rattle.memory.specs.Replies.{usage_reply};

    /// A memory with nothing in it.
    pub fn open() -> Memory
        ensures { (M : ShapeTable) (code : Shape → ℕ) → Stands M code opening result }
    {
        Memory {
            words: [0; 8192],
            roots: [NOTHING; 32],
            trains: Trains::new(),
            mark: None,
            used: 0,
        }
    }

    /// How many words, cars and trains are in use, and whether there is a mark.
    pub fn tally(&self) -> Usage
        ensures { (M : ShapeTable) (code : Shape → ℕ) → Continues M code Tally (usage_reply result) self.now self.now }
    {
        Usage {
            words: self.used,
            cars: self.trains.cars(),
            trains: self.trains.count(),
            mark: self.mark.is_some(),
        }
    }
}

//! A step of the collector.

ghost use Rattle.std.specs.Prelude.{◌≡◌, Some, ◌∷◌};
ghost use Rattle.calls.specs.declared.call.Call.TheVariants.{Step};
ghost use Rattle.remembered.specs.Laws.{Keeps};
ghost use Rattle.remembered.specs.Updates.{no_pairs, still_noted};
ghost use Rattle.model.specs.Calls.{History};
ghost use Rattle.model.specs.Claims.{MoveRequest};
ghost use Rattle.model.specs.Space.{space_of, updates_of, act, free_car, looked as pairs_looked_at};
ghost use Rattle.model.specs.Step.{first_to, outside};
ghost use Rattle.model.specs.Trains.{Car, Train, Trains as CarTrains, train_objects};
ghost use Rattle.memory.specs.Stands.{Stands, mark_at};
ghost use Rattle.steps.specs.Asked.{Remembers};
ghost use Rattle.steps.specs.Claiming.{FirstCar, KnownCar};
ghost use Rattle.steps.specs.Steps.{Steps};

use crate::claiming::claim_all;
use crate::emptying::move_out;
use crate::finishing::finish;
use crate::outside::find_outside;
use crate::train::{free_train, objects_in};
use arrayvec::ArrayVec;
use calls::{Report, StepKind};
use claims::Claims;
use layout::Layout;
use memory::{Mark, Memory};
use objects::NOTHING;
use remembered::RememberedSet;
use trains::CAR_WORDS;

// Empties and frees the first car: what is claimed of it is moved out, and the rest is lost. `asked` is what the first
// reference from outside asks for, and so many pairs were looked at.
fn empty_first_car<R: RememberedSet, L: Layout>(
    memory: &mut Memory,
    set: &mut R,
    car: u32,
    asked: Mark,
    looked: u32,
) -> Report
    requires known { KnownCar L.table L.code memory.old (R.has set.old) car }
    ensures { (h : History) (f : Car) (cs : Train) (ts : CarTrains) → FirstCar L.table L.code memory.old (R.has set.old) h f cs ts → car ≡ f.number → (w : MoveRequest)
        → first_to (train_objects (f ∷ cs)) (outside (space_of L.table h).roots ((f ∷ cs) ∷ ts) ts) ≡ Some w → asked ≡ mark_at (space_of L.table h).trains w
        → looked ≡ pairs_looked_at (R.has set.old) (f ∷ cs)
        → Steps L.table L.code R.has R.says (free_car L.table w f cs ts (space_of L.table h)) result memory.new set.old set.new }
{
    let arrival = memory.trains.arrival();
    let filled = memory.trains.filled(car).min(CAR_WORDS);
    let objects = objects_in::<L>(&memory.words, car, filled);
    let mut claims = Claims::new();
    let mut slots: ArrayVec<u32, 8192> = ArrayVec::new();
    claim_all::<R, L>(memory, set, &mut claims, &mut slots, car, arrival);
    let lost = objects - claims.as_slice().len() as u32;
    let mut forward = [NOTHING; 128];
    let moved = move_out::<L>(memory, &mut forward, &claims, slots.as_slice(), car);
    finish::<L, R>(
        memory,
        set,
        &forward,
        &claims,
        slots.as_slice(),
        car,
        moved,
        asked,
        lost as u16,
        looked,
    )
}

/// A step. Without trains nothing is done. If no reference comes from outside to the first train, all of it is freed; else its
/// first car is emptied and freed.
pub fn step<R: RememberedSet, L: Layout>(memory: &mut Memory, set: &mut R) -> Report
    requires known { Remembers L.table L.code (R.has set.old) memory.old }
    ensures { (h : History) → Stands L.table L.code (space_of L.table h) memory.old → Keeps (still_noted no_pairs (updates_of L.table h)) (R.has set.old)
        → Steps L.table L.code R.has R.says (act L.table Step (space_of L.table h)) result memory.new set.old set.new }
{
    if memory.trains.count() == 0 {
        return Report {
            kind: StepKind::Idle,
            out: 0,
            back: 0,
            copied: 0,
            lost: 0,
            looked: 0,
            cars: 0,
        };
    }
    let found = find_outside::<R, L>(memory, set);
    match (found.first, memory.trains.first_car()) {
        (Some(asked), Some(car)) => empty_first_car::<R, L>(memory, set, car, asked, found.looked),
        _ => free_train::<R, L>(memory, set, found.looked),
    }
}

//! The end of a step that emptied the first car.

ghost use Rattle.std.specs.Prelude.{◌≡◌, Some, ◌∷◌};
ghost use Rattle.model.specs.Claims.{MoveRequest};
ghost use Rattle.model.specs.Space.{space_of, free_car, looked as pairs_looked_at};
ghost use Rattle.model.specs.Step.{first_to, outside};
ghost use Rattle.model.specs.Trains.{train_objects};
ghost use Rattle.memory.specs.Stands.{mark_at};
ghost use Rattle.steps.specs.Emptying.{Leaving};
ghost use Rattle.steps.specs.Finishing.{CanEnd};
ghost use Rattle.steps.specs.Steps.{Steps};

use crate::mark::set_mark;
use calls::{Report, StepKind};
use claims::Claims;
use layout::Layout;
use memory::{Mark, Memory};
use moves::fixes::fixed_word;
use moves::moves::Moved;
use moves::notes::{note_moved, note_slots};
use remembered::RememberedSet;

/// Ends a step whose first car was emptied: the set forgets the car and is told of the corrected slots and of those of the
/// moved objects, the car is free again, and the guard sets a mark if it has to. `asked` is what the first reference from
/// outside asks for, by the address before the move; `lost` is how many objects of the car were not claimed, and so many
/// pairs were looked at.
pub(crate) fn finish<L: Layout, R: RememberedSet>(
    memory: &mut Memory,
    set: &mut R,
    forward: &[u32; 128],
    claims: &Claims,
    slots: &[u32],
    car: u32,
    moved: Moved,
    asked: Mark,
    lost: u16,
    looked: u32,
) -> Report
    requires known { (e : Leaving) × CanEnd L.table L.code L.decoded forward.now car claims.now slots.now moved.out moved.back moved.copied lost memory.old e }
    ensures { (e : Leaving) → CanEnd L.table L.code L.decoded forward.now car claims.now slots.now moved.out moved.back moved.copied lost memory.old e → (w : MoveRequest)
        → first_to (train_objects (e.first ∷ e.cars)) (outside (space_of L.table e.history).roots ((e.first ∷ e.cars) ∷ e.rest) e.rest) ≡ Some w
        → asked ≡ mark_at (space_of L.table e.history).trains w → looked ≡ pairs_looked_at (R.has set.old) (e.first ∷ e.cars)
        → Steps L.table L.code R.has R.says (free_car L.table w e.first e.cars e.rest (space_of L.table e.history)) result memory.new set.old set.new }
{
    set.forget(car);
    note_slots(set, &memory.words, &memory.trains, slots);
    note_moved::<L, R>(set, &memory.words, &memory.trains, forward, car, claims);
    memory.used = memory.used - memory.trains.filled(car) + moved.copied;
    memory.trains.release();
    let object = fixed_word(forward, car, asked.object);
    let rank = asked.rank;
    memory.mark = set_mark(memory.mark, moved.out, Mark { object, rank });
    Report {
        kind: StepKind::Car,
        out: moved.out as u8,
        back: moved.back as u8,
        copied: moved.copied as u8,
        lost,
        looked,
        cars: 1,
    }
}

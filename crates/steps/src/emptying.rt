//! Moving what was claimed out of the first car, and correcting all that held it.

ghost use Rattle.std.specs.Prelude.{◌≡◌};
ghost use Rattle.model.specs.Space.{space_of, carried};
ghost use Rattle.model.specs.Step.{out_of, back_of, copied_of};
ghost use Rattle.steps.specs.Emptying.{Leaving, CanEmpty, IsEmptied};
ghost use Rattle.steps.specs.Finishing.{CanFinish};

use crate::mark::mark_left;
use claims::Claims;
use layout::Layout;
use memory::Memory;
use moves::fixes::{fix_moved, fix_roots, fix_slots};
use moves::moves::{Moved, move_claimed};

/// Moves what was claimed out of the first car, which leaves its train, and corrects all that held it: first the references
/// of the moved objects, then the slots of others that hold one, and the roots. A mark whose object lay in the car goes.
pub(crate) fn move_out<L: Layout>(
    memory: &mut Memory,
    forward: &mut [u32; 128],
    claims: &Claims,
    slots: &[u32],
    car: u32,
) -> Moved
    requires known { (e : Leaving) × CanEmpty L.table L.code e car claims.now slots.now memory.old }
    ensures emptied { (e : Leaving) → CanEmpty L.table L.code e car claims.now slots.now memory.old → IsEmptied L.table L.code (space_of L.table e.history) e.first e.cars e.rest forward.new memory.new }
    ensures finish { (e : Leaving) → CanEmpty L.table L.code e car claims.now slots.now memory.old → CanFinish L.table L.decoded e forward.new car claims.now slots.now memory.new.words }
    ensures out { (e : Leaving) → CanEmpty L.table L.code e car claims.now slots.now memory.old → result.out ≡ out_of (carried e.first e.cars e.rest (space_of L.table e.history)).taken }
    ensures back { (e : Leaving) → CanEmpty L.table L.code e car claims.now slots.now memory.old → result.back ≡ back_of (carried e.first e.cars e.rest (space_of L.table e.history)).taken }
    ensures copied { (e : Leaving) → CanEmpty L.table L.code e car claims.now slots.now memory.old → result.copied ≡ copied_of (carried e.first e.cars e.rest (space_of L.table e.history)).taken }
{
    memory.trains.take_first();
    let moved = move_claimed::<L>(&mut memory.words, &mut memory.trains, forward, car, claims);
    fix_moved::<L>(&mut memory.words, forward, car, claims);
    fix_slots(&mut memory.words, forward, car, slots);
    fix_roots(&mut memory.roots, forward, car);
    memory.mark = mark_left(memory.mark, car);
    moved
}

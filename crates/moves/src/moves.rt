//! Moving claimed objects out of the car that is being emptied.

ghost use Rattle.std.specs.Prelude.{◌≡◌, ℕ, ◌+◌, map, length, replicate};
ghost use Rattle.model.specs.Step.{out_of, back_of, copied_of};
ghost use Rattle.moves.specs.Copies.{HasRoom, HasMoved, told_size};
ghost use Rattle.moves.specs.Moves.{Carrying, Carries, AreMoved};

use crate::CAR_WORDS;
use claims::{Claim, Claims};
use layout::Layout;
use objects::{NOTHING, copy_object};
use trains::Trains;

/// How many objects left the first train, how many went back into it, and how many words were copied.
#[derive(Clone, Copy, Debug, Default, PartialEq, Eq)]
pub struct Moved {
    pub out: u32,
    pub back: u32,
    pub copied: u32,
}

// Moves one claimed object: makes room for it in its train, copies its words, and tells the table by its old place where it
// is now. Answers how many words it has.
fn move_object<L: Layout>(
    words: &mut [u32; 8192],
    trains: &mut Trains,
    forward: &mut [u32; 128],
    car: u32,
    claim: Claim,
) -> u32
    requires { HasRoom L.decoded words.old car claim trains.old }
    ensures size { result ≡ told_size L.decoded words.old car claim }
    ensures moved { HasMoved L.decoded words.old car claim trains.old forward.old words.new forward.new trains.new }
{
    let from = CAR_WORDS * car + claim.place;
    let size = L::size(words[from as usize]);
    let to = trains.place(claim.rank, size);
    copy_object(words, from, to, size);
    forward[claim.place as usize] = to;
    size
}

// A table that tells of no object.
fn clear_table(forward: &mut [u32; 128])
    ensures { forward.new ≡ replicate 128 8192 }
{
    *forward = [NOTHING; CAR_WORDS as usize];
}

/// Moves the claimed objects of the car into their trains, in the order of the claims. The table tells then by an object's
/// old place where it is now.
pub fn move_claimed<L: Layout>(
    words: &mut [u32; 8192],
    trains: &mut Trains,
    forward: &mut [u32; 128],
    car: u32,
    claims: &Claims,
) -> Moved
    requires known { (q : Carrying) × Carries L.table L.code words.old trains.old car claims.now q }
    ensures moved { (q : Carrying) → Carries L.table L.code words.old trains.old car claims.now q → AreMoved L.table L.code q (length q.row) words.new forward.new trains.new }
    ensures out { (q : Carrying) → Carries L.table L.code words.old trains.old car claims.now q → result.out ≡ out_of q.row }
    ensures back { (q : Carrying) → Carries L.table L.code words.old trains.old car claims.now q → result.back ≡ back_of q.row }
    ensures copied { (q : Carrying) → Carries L.table L.code words.old trains.old car claims.now q → result.copied ≡ copied_of q.row }
{
    clear_table(forward);
    let mut out = 0;
    let mut back = 0;
    let mut copied = 0;
    for claim in claims.as_slice() {
        copied += move_object::<L>(words, trains, forward, car, *claim);
        out += u32::from(claim.rank > 0);
        back += u32::from(claim.rank == 0);
    }
    Moved { out, back, copied }
}

//! The buffered set: holds up to 16 pairs above any remembered set.

ghost use Rattle.std.specs.Prelude.{◌≡◌, ℕ, ◌+◌, ◌-◌, ◌<◌, ◌≤◌, Bool, true, false, not, ◌||◌, [], ◌∷◌, ◌++◌, length};
ghost use Rattle.arrayvec.specs.ArrayVec.{array_vec_len};
ghost use Rattle.remembered.specs.Laws.{new_in, Least};
ghost use Rattle.remembered.specs.Pairs.{pair, is_pair, without};
ghost use Rattle.remembered.specs.Buffers.{buffered, sent, Ranged, with_held, BufferNoted, BufferForgot, BufferSays};
ghost use Rattle.remembered.specs.BufferLaws.{buffer_bounded, buffered_exact};
ghost use Rattle.remembered.specs.Leads.{Leads};

use crate::exact::ExactSet;
use crate::{Pair, RememberedSet, is_in_range};
use arrayvec::ArrayVec;

// How many pairs a buffer holds.
const BUFFER_PLACES: usize = 16;

// No `impl Model`: the trait's law `bounded` is of every value, and a list that no buffer holds need not be in range.
/// A set below, and the pairs held above it, the oldest first.
#[derive(Drop)]
pub struct Buffered<S> {
    below: S,
    held: ArrayVec<Pair, BUFFER_PLACES>,
    ghost near: { Ranged held.items },
}

// The least of an address found so far and of a pair's, if it is one of the car at or above `from`.
fn nearer(best: Option<u32>, pair: Pair, car: u32, from: u32) -> Option<u32>
    ensures { (P : ℕ → Bool) → Least P from best → Least (λ a. P a || is_pair pair car a) from result }
{
    if pair.car != car || pair.address < from {
        return best;
    }
    // A `match`, since `map_or` makes the buffered card set about 1.8 times slower than it was.
    match best {
        Some(address) => Some(address.min(pair.address)),
        None => Some(pair.address),
    }
}

impl<S> Buffered<S> {
    ghost use Rattle.remembered.specs.BufferParts.{set_below, held_pairs};

    /// How many pairs are held, of 16.
    pub fn held_count(&self) -> u32
        ensures value { result ≡ length (held_pairs self.now) }
        ensures fits { result ≤ 16 }
    {
        self.held.len() as u32
    }

    // Holds a pair more. It is in range by `requires`, since `lacks` has asked.
    fn hold(&mut self, car: u32, address: u32)
        requires room { array_vec_len self.old.held < 16 }
        requires car { car < 64 }
        requires address { address < 8192 }
        ensures below { self.new.below ≡ self.old.below }
        ensures held { self.new.held.items ≡ self.old.held.items ++ (pair car address ∷ []) }
    {
        self.held.push(Pair { car, address });
    }

    // Drops the held pairs of a car, the others keep their order.
    fn drop_held(&mut self, car: u32)
        ensures below { self.new.below ≡ self.old.below }
        ensures held { self.new.held.items ≡ without car self.old.held.items }
    {
        self.held.retain(|pair| pair.car != car);
    }
}

impl<S: RememberedSet> Buffered<S> {
    ghost use Rattle.remembered.specs.BufferParts.{set_below, held_pairs};

    /// A buffer above any set, with the pairs that the set has. It holds none yet.
    pub fn over(below: S) -> Buffered<S>
        ensures pairs { (c a : ℕ) → ⟦<Buffered<S> as RememberedSet>⟧.has result c a ≡ S.has below c a }
        ensures below { set_below result ≡ below }
        ensures none { held_pairs result ≡ [] }
    {
        Buffered {
            below,
            held: ArrayVec::new(),
        }
    }

    // Sends all held pairs down, in their order.
    fn send_down(&mut self)
        ensures below { Leads S.has S.says self.old.below (sent self.old.held.items []) self.new.below }
        ensures none { self.new.held.items ≡ [] }
    {
        let below = &mut self.below;
        for pair in self.held.as_slice() {
            below.note(pair.car, pair.address);
        }
        self.held.clear();
    }

    // Makes room for a pair: a full buffer is sent down.
    fn make_room(&mut self)
        ensures room { array_vec_len self.new.held < 16 }
        ensures same { array_vec_len self.old.held < 16 → self.new ≡ self.old }
        ensures below { 16 ≤ array_vec_len self.old.held → Leads S.has S.says self.old.below (sent self.old.held.items []) self.new.below }
        ensures none { 16 ≤ array_vec_len self.old.held → self.new.held.items ≡ [] }
    {
        if self.held.is_full() {
            self.send_down();
        }
    }

    // The first address from `from` on that the set below or a held pair has with the car.
    fn nearest(&self, car: u32, from: u32) -> Option<u32>
        ensures { Least (with_held (S.has self.now.below) self.now.held.items car) from result }
    {
        let mut best = self.below.next(car, from);
        for pair in self.held.as_slice() {
            best = nearer(best, *pair, car, from);
        }
        best
    }

    // Whether the pair could be in the set and is not.
    fn lacks(&self, car: u32, address: u32) -> bool
        ensures { result ≡ new_in (with_held (S.has self.now.below) self.now.held.items) car address }
    {
        is_in_range(car, address) && self.nearest(car, address) != Some(address)
    }
}

impl<S: RememberedSet> RememberedSet for Buffered<S> {
    ghost has = { λ s. with_held (S.has s.below) s.held.items };

    ghost says = { λ s u t. BufferSays S.has S.says s.below s.held.items u t.below t.held.items };

    ghost bounded = { λ s. buffer_bounded S.has s.below s.held.items s.near (S.bounded s.below) };

    fn note(&mut self, car: u32, address: u32) {
        if self.lacks(car, address) {
            self.make_room();
            self.hold(car, address);
        }
    }

    fn next(&self, car: u32, from: u32) -> Option<u32> {
        self.nearest(car, from)
    }

    fn forget(&mut self, car: u32) {
        self.below.forget(car);
        self.drop_held(car);
    }
}

impl<S: ExactSet> ExactSet for Buffered<S> {
    ghost means = { buffered S.means };

    ghost exact = { buffered_exact S.has S.says S.means (λ s. s.below) (λ s. s.held.items) S.exact };
}

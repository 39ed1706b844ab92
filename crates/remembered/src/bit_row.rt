//! A row of bits in words of 64, found a word at a time.

ghost use Rattle.std.specs.Prelude.{◌≡◌, ℕ, ◌+◌, ◌-◌, ◌*◌, ◌/◌, ◌%◌, ◌<◌, ◌≤◌, false, IfSome};
ghost use Rattle.remembered.specs.BitRow.{bit, bit_in, Marked};
ghost use Rattle.remembered.specs.Laws.{Least};

use std::marker::Model;

/// A row of `W` words, the first of which has bits 0 to 63. Clauses see the words.
#[derive(Clone, Copy)]
pub(crate) struct BitRow<const W: usize> {
    words: [u64; W],
}

impl<const W: usize> Model for BitRow<W> {
    ghost use Rattle.std.specs.Prelude.{◌≡◌, ℕ, List, length};

    ghost Value = { List ℕ };

    ghost view = { λ r. r.words };

    ghost invariant = { λ r. length r.words ≡ W };

    ghost inverse = { λ ws. record { words = ws } };
}

// The lowest bit of a word that is set, at or above `from`.
fn next_in_word(word: u64, from: u32) -> Option<u32>
    requires { from < 64 }
    ensures least { Least (bit word) from result }
    ensures within { IfSome result (λ k. k < 64) }
{
    let rest = word >> from;
    if rest == 0 {
        return None;
    }
    Some(from + rest.trailing_zeros())
}

impl<const W: usize> BitRow<W> {
    /// A row with no bit set.
    pub(crate) fn none() -> BitRow<W>
        ensures { (k : ℕ) → bit_in result k ≡ false }
    {
        BitRow { words: [0; W] }
    }

    /// Whether a bit is set.
    pub(crate) fn has(&self, k: u32) -> bool
        requires { k < 64 * W }
        ensures { result ≡ bit_in self.now k }
    {
        (self.words[k as usize / 64] >> (k % 64)) % 2 == 1
    }

    /// Sets a bit.
    pub(crate) fn mark(&mut self, k: u32)
        requires { k < 64 * W }
        ensures { Marked self.old k self.new }
    {
        self.words[k as usize / 64] |= 1 << (k % 64);
    }

    /// The lowest bit that is set, at or above `from`.
    pub(crate) fn next(&self, from: u32) -> Option<u32>
        requires { W ≤ 8192 }
        ensures least { Least (bit_in self.now) from result }
        ensures within { IfSome result (λ k. k < 64 * W) }
    {
        // A loop over places, since the place is part of the answer: `enumerate` and `skip` would give the same numbers in
        // more words.
        for i in from as usize / 64..W {
            let first = 64 * i as u32;
            if let Some(k) = next_in_word(self.words[i], from.saturating_sub(first)) {
                return Some(first + k);
            }
        }
        None
    }
}

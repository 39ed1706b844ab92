// Two layouts beside each other. The lowest bit of a header tells which one it belongs to, so that
// pairs nest: a pair of small headers has small headers again.
ghost use Rattle.std.specs.Prelude.{◌≡◌, ◌<◌};
ghost use Rattle.std.specs.Option.{SomeIff};
ghost use Rattle.layout.specs.Pair.{pair_table, pair_code, pair_decoded, half_headers};
ghost use Rattle.layout.specs.Pair.{pair_lawful, pair_coded};

use crate::{Layout, Shape};

/// The kinds of `A` come first, then those of `B`, each counted on from there.
#[derive(Clone, Copy)]
pub struct Pair<A: Layout, B: Layout> {
    pub first: A,
    pub second: B,
}

impl<A: Layout, B: Layout> Layout for Pair<A, B> {
    ghost table = { pair_table A.table B.table A.code B.code };

    ghost code = { pair_code A.table.kinds A.code B.code };

    ghost decoded = { pair_decoded A.decoded B.decoded };

    fn kinds() -> u32 {
        A::kinds().saturating_add(B::kinds())
    }

    fn header(shape: Shape) -> Option<u32> {
        // Three cases, so a `match`. The number of kinds is a word, so the last kind is one less.
        let half = match shape.kind.checked_sub(A::kinds()) {
            None => Half::First(A::header(shape)?),
            Some(_) if shape.kind == u32::MAX => return None,
            Some(kind) => Half::Second(B::header(Shape { kind, ..shape })?),
        };
        half.header()
    }

    // Each function from here on puts one question to the half that the header belongs to. The halves'
    // own functions cannot be passed by name yet, only closures that call them.
    fn references(header: u32) -> u32 {
        Half::from(header).with_own(|own| A::references(own), |own| B::references(own))
    }

    fn data_words(header: u32) -> u32 {
        Half::from(header).with_own(|own| A::data_words(own), |own| B::data_words(own))
    }

    fn reference_offset(header: u32, i: u32) -> Option<u32> {
        Half::from(header).with_own(
            |own| A::reference_offset(own, i),
            |own| B::reference_offset(own, i),
        )
    }

    fn word_offset(header: u32, j: u32) -> Option<u32> {
        Half::from(header).with_own(|own| A::word_offset(own, j), |own| B::word_offset(own, j))
    }

    fn reference_at(header: u32, offset: u32) -> Option<u32> {
        Half::from(header).with_own(
            |own| A::reference_at(own, offset),
            |own| B::reference_at(own, offset),
        )
    }

    ghost lawful = { pair_lawful B.code A.lawful A.coded B.lawful };

    ghost coded = { pair_coded A.coded B.coded };
}

/// Headers from here on cannot be doubled.
const LIMIT: u32 = 1 << 31;

/// A header of a pair, as a header of the half that it belongs to.
#[derive(Clone, Copy)]
enum Half {
    First(u32),
    Second(u32),
}

impl From<u32> for Half {
    ghost use Rattle.layout.specs.Halves.{half_of};

    ghost from_gives = { λ header half. half ≡ half_of header };

    fn from(header: u32) -> Self {
        // Here alone the lowest bit is read.
        match header % 2 {
            0 => Half::First(header / 2),
            _ => Half::Second(header / 2),
        }
    }
}

impl Half {
    ghost use Rattle.layout.specs.Halves.{own_header, header_of, OfHalf};

    /// What the half's own layout says of its header.
    fn with_own<R, F: FnOnce(u32) -> R + Copy, G: FnOnce(u32) -> R + Copy>(
        self,
        first: F,
        second: G,
    ) -> R
        requires first { F.IsAlwaysCallable first }
        requires second { G.IsAlwaysCallable second }
        ensures { OfHalf (λ own. F.post first own result) (λ own. G.post second own result) self }
    {
        match self {
            Half::First(own) => first(own),
            Half::Second(own) => second(own),
        }
    }

    /// The header of the pair, if it fits a word.
    fn header(self) -> Option<u32>
        ensures { SomeIff result (own_header self < half_headers) (header_of self) }
    {
        match self {
            Half::First(own) if own < LIMIT => Some(2 * own),
            Half::Second(own) if own < LIMIT => Some(2 * own + 1),
            _ => None,
        }
    }
}

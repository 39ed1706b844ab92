// What holds of every layout.
ghost use Rattle.std.specs.Prelude.{◌≡◌};
ghost use Rattle.std.specs.Option.{option_map};
ghost use Rattle.layout.specs.Coding.{Coded};
ghost use Rattle.layout.specs.Counts.{counts_of};
ghost use Rattle.layout.specs.Gapless.{LeavesNoGap};
ghost use Rattle.layout.specs.ShapeTable.{Lawful};

use crate::{Layout, Shape};

/// How many references and data words an object has.
#[derive(Clone, Copy, Debug, PartialEq, Eq)]
pub struct Counts {
    pub references: u32,
    pub data_words: u32,
}

/// From a shape to its header word and back to its counts: the word alone gives a shape back.
pub fn headers_give_back_shapes<L: Layout>(shape: Shape) -> Option<Counts>
    ensures counts { result ≡ option_map counts_of (L.table.offsets shape) }
    ensures shapes { Lawful L.table }
    ensures no_gaps { LeavesNoGap L.table }
    ensures headers { Coded L.table L.code L.decoded }
{
    let header = L::header(shape)?;
    Some(Counts {
        references: L::references(header),
        data_words: L::data_words(header),
    })
}

// Arrays: 1 to 63 references and no data words.
ghost use Rattle.layout.specs.Array.{array_table, array_code, array_decoded};
ghost use Rattle.layout.specs.Array.{array_lawful, array_coded};

use crate::words::{Run, low_part};
use crate::{Layout, Shape};

/// The most references that an array has.
pub const MOST_REFERENCES: u32 = 63;

/// The layout of arrays.
#[derive(Clone, Copy)]
pub struct Array;

impl Layout for Array {
    ghost table = { array_table };

    ghost code = { array_code };

    ghost decoded = { array_decoded };

    fn kinds() -> u32 {
        1
    }

    fn header(shape: Shape) -> Option<u32> {
        match (shape.kind, shape.refs, shape.words) {
            (0, refs @ 1..=MOST_REFERENCES, 0) => Some(refs),
            _ => None,
        }
    }

    // No array is empty, so a word that says so stands for one reference.
    fn references(header: u32) -> u32 {
        low_part::<64>(header, 1)
    }

    fn data_words(_header: u32) -> u32 {
        0
    }

    // As in the other layout: a default in the trait would say that references come first in every one.
    fn reference_offset(header: u32, i: u32) -> Option<u32> {
        Run::behind_header(Self::references(header)).offset_of(i)
    }

    fn word_offset(_header: u32, _j: u32) -> Option<u32> {
        None
    }

    fn reference_at(header: u32, offset: u32) -> Option<u32> {
        Run::behind_header(Self::references(header)).index_at(offset)
    }

    ghost lawful = { array_lawful };

    ghost coded = { array_coded };
}

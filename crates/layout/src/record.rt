// Records: up to 15 references, and behind them up to 15 data words.
ghost use Rattle.std.specs.Prelude.{◌≡◌};
ghost use Rattle.layout.specs.Record.{record_table, record_code, record_decoded};
ghost use Rattle.layout.specs.Record.{record_bits, record_lawful, record_coded};

use crate::words::{Run, low_part};
use crate::{Layout, Shape};

/// The most references that a record has, and the most data words: each number has four bits of
/// the header.
pub const MOST_OF_EACH: u32 = 15;

/// The layout of records.
#[derive(Clone, Copy)]
pub struct Record;

impl Layout for Record {
    ghost table = { record_table };

    ghost code = { record_code };

    ghost decoded = { record_decoded };

    fn kinds() -> u32 {
        1
    }

    fn header(shape: Shape) -> Option<u32> {
        match (shape.kind, shape.refs, shape.words) {
            (0, 0, 0) => None,
            (0, refs @ 0..=MOST_OF_EACH, words @ 0..=MOST_OF_EACH) => Some(refs + 16 * words),
            _ => None,
        }
    }

    fn references(header: u32) -> u32 {
        shape(header) % 16
    }

    fn data_words(header: u32) -> u32 {
        shape(header) / 16
    }

    // As in the other layout: a default in the trait would say that references come first in every one.
    fn reference_offset(header: u32, i: u32) -> Option<u32> {
        Run::behind_header(Self::references(header)).offset_of(i)
    }

    fn word_offset(header: u32, j: u32) -> Option<u32> {
        let data_words = Run {
            first: 1 + Self::references(header),
            count: Self::data_words(header),
        };
        data_words.offset_of(j)
    }

    fn reference_at(header: u32, offset: u32) -> Option<u32> {
        Run::behind_header(Self::references(header)).index_at(offset)
    }

    ghost lawful = { record_lawful };

    ghost coded = { record_coded };
}

// References in the low four bits, data words in the next four. No record is empty, so a word
// that says so stands for one data word.
fn shape(header: u32) -> u32
    ensures { result ≡ record_bits header }
{
    low_part::<256>(header, 16)
}

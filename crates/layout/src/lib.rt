// Layouts: which shapes of objects there are, and what a header word tells of its object.
#![tactic(auto)]

ghost use Rattle.std.specs.Prelude.{◌≡◌, ℕ};
ghost use Rattle.layout.specs.Coding.{Coded, header_word, size_of, Nth, Which};
ghost use Rattle.layout.specs.ShapeTable.{ShapeTable, Offsets, Lawful};

pub mod array;
pub mod laws;
pub mod pair;
pub mod product;
pub mod record;
mod words;

/// A shape of objects: a kind, counted from 0, and two numbers, of references and of data words.
/// A layout says which shapes it admits, and what it makes of the numbers.
#[derive(Clone, Copy, Debug, PartialEq, Eq)]
pub struct Shape {
    pub kind: u32,
    pub refs: u32,
    pub words: u32,
}

/// Which shapes of objects there are, and where the words of each stand.
///
/// Every function takes any numbers, and what it says of a header word is always the same. Only of
/// the headers of admitted shapes is it said that they give back what the table says of the shape;
/// what any other word tells is the layout's own affair.
// A header is whatever a word of memory holds, so it stays the `u32` that is read.
pub trait Layout {
    ghost use Rattle.layout.specs.declared.Shape.{Shape};

    // Which shapes are admitted, and where the words of each stand.
    ghost table: { ShapeTable };

    // The header word of an admitted shape.
    ghost code: { Shape → ℕ };

    // Which words a header word tells of, whatever it is.
    ghost decoded: { ℕ → Offsets };

    /// The number of kinds, which are counted from 0.
    fn kinds() -> u32
        ensures { result ≡ table.kinds };

    /// The header word of a shape, or none if it is not admitted.
    fn header(shape: Shape) -> Option<u32>
        ensures { result ≡ header_word table code shape };

    /// The number of references.
    fn references(header: u32) -> u32
        ensures { result ≡ (decoded header).refs };

    /// The number of data words.
    fn data_words(header: u32) -> u32
        ensures { result ≡ (decoded header).words };

    /// The number of words, the header among them; the greatest number if there are more.
    fn size(header: u32) -> u32
        ensures { result ≡ size_of (decoded header) }
    {
        1u32.saturating_add(Self::references(header))
            .saturating_add(Self::data_words(header))
    }

    /// How far behind the header reference `i` stands, or none if there is no such reference.
    fn reference_offset(header: u32, i: u32) -> Option<u32>
        ensures { Nth (decoded header).refs (decoded header).ref_at i result };

    /// How far behind the header data word `j` stands, or none if there is no such data word.
    fn word_offset(header: u32, j: u32) -> Option<u32>
        ensures { Nth (decoded header).words (decoded header).word_at j result };

    /// Which reference stands that far behind the header, or none if no reference does.
    fn reference_at(header: u32, offset: u32) -> Option<u32>
        ensures { Which (decoded header).refs (decoded header).ref_at offset result };

    // Known kinds only, and words that stand apart.
    ghost lawful: { Lawful table };

    // Headers of admitted shapes are words, and give back the shape's words.
    ghost coded: { Coded table code decoded };
}

//! A layout by another maker, unlike those of the product: references and data words stand in turns.
ghost use Rattle.layout_tests.specs.Turns.{turns, turns_table, turns_lawful, turns_coded};

use layout::{Layout, Shape};

/// As many references as data words, 1 to 31 of each, in turns: kind 0 takes both numbers alike.
#[derive(Clone, Copy)]
pub struct Turns;

impl Layout for Turns {
    ghost table = { turns_table };

    ghost code = { λ s. s.refs };

    ghost decoded = { turns };

    fn kinds() -> u32 {
        1
    }

    fn header(shape: Shape) -> Option<u32> {
        match (shape.kind, shape.refs) {
            (0, refs @ 1..=31) if refs == shape.words => Some(refs),
            _ => None,
        }
    }

    fn references(header: u32) -> u32 {
        header
    }

    fn data_words(header: u32) -> u32 {
        header
    }

    // A number of words above 31 is no shape's, so that its words share places does no harm.
    fn reference_offset(header: u32, i: u32) -> Option<u32> {
        (i < header).then(|| 1 + i % 32 * 2)
    }

    fn word_offset(header: u32, j: u32) -> Option<u32> {
        (j < header).then(|| 2 + j % 32 * 2)
    }

    fn reference_at(header: u32, offset: u32) -> Option<u32> {
        let i = offset / 2;
        (offset % 2 == 1 && i < 32 && i < header).then_some(i)
    }

    ghost lawful = { turns_lawful };

    ghost coded = { turns_coded };
}

#[cfg(test)]
mod tests {
    use super::Turns;
    use layout::laws::{Counts, headers_give_back_shapes};
    use layout::pair::Pair;
    use layout::product::Product;
    use layout::{Layout, Shape};
    use std::process::Abort;
    use std::test::Fail;

    // Asks each function once by the bound alone, of three references and three data words.
    fn stand_in_turns<L: Layout>(rt: &impl Abort, kind: u32) -> Result<(), Fail> {
        assert!(rt; kind < L::kinds());
        let shape = Shape {
            kind,
            refs: 3,
            words: 3,
        };
        let counts = Counts {
            references: 3,
            data_words: 3,
        };
        assert_eq!(rt; headers_give_back_shapes::<L>(shape), Some(counts));
        let header = L::header(shape).ok_or("refused")?;
        assert_eq!(rt; L::references(header), 3);
        assert_eq!(rt; L::data_words(header), 3);
        assert_eq!(rt; L::size(header), 7);
        for (i, offset) in [(0, Some(1)), (1, Some(3)), (2, Some(5)), (3, None)] {
            assert_eq!(rt; L::reference_offset(header, i), offset);
        }
        for (j, offset) in [(0, Some(2)), (1, Some(4)), (2, Some(6)), (3, None)] {
            assert_eq!(rt; L::word_offset(header, j), offset);
        }
        for (offset, i) in [(0, None), (1, Some(0)), (2, None), (5, Some(2)), (7, None)] {
            assert_eq!(rt; L::reference_at(header, offset), i);
        }
        Ok(())
    }

    fn is_refused<L: Layout>(kind: u32, refs: u32, words: u32) -> bool {
        headers_give_back_shapes::<L>(Shape { kind, refs, words }).is_none()
    }

    #[test]
    fn turns_are_a_layout(rt: HostRuntime) -> Result<(), Fail> {
        assert_eq!(rt; Turns::kinds(), 1);
        for (kind, refs, words) in [(0, 0, 0), (0, 32, 32), (0, 3, 4), (1, 3, 3)] {
            assert!(rt; is_refused::<Turns>(kind, refs, words));
        }
        assert!(rt; !is_refused::<Turns>(0, 31, 31));
        stand_in_turns::<Turns>(&rt, 0)
    }

    // Kind 0 is turns, kinds 1 and 2 are the product's.
    type TurnsFirst = Pair<Turns, Product>;

    #[test]
    fn turns_stand_beside_the_product(rt: HostRuntime) -> Result<(), Fail> {
        assert_eq!(rt; TurnsFirst::kinds(), 3);
        for (kind, refs, words) in [(0, 3, 4), (1, 0, 0), (2, 1, 1), (3, 1, 0)] {
            assert!(rt; is_refused::<TurnsFirst>(kind, refs, words));
        }
        let record = Shape {
            kind: 1,
            refs: 2,
            words: 5,
        };
        let counts = Counts {
            references: 2,
            data_words: 5,
        };
        assert_eq!(rt;
            headers_give_back_shapes::<TurnsFirst>(record),
            Some(counts)
        );
        stand_in_turns::<TurnsFirst>(&rt, 0)?;
        stand_in_turns::<Pair<Product, Turns>>(&rt, 2)
    }

    // Words that are the header of no shape: one without words, and two with far too many.
    #[test]
    fn other_words_tell_what_they_like(rt: HostRuntime) {
        for (word, size) in [(0, 1), (5000, 10001), (u32::MAX, u32::MAX)] {
            assert_eq!(rt; Turns::size(word), size);
        }
        for i in [0, 32, 4992] {
            assert_eq!(rt; Turns::reference_offset(5000, i), Some(1));
        }
    }
}

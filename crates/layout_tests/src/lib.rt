// Table tests of the layouts: the edges of what is admitted, and what headers tell.
#![tactic(auto)]

pub mod turns;

#[cfg(test)]
mod tests {
    use layout::pair::Pair;
    use layout::product::Product;
    use layout::record::Record;
    use layout::{Layout, Shape};
    use std::process::Abort;
    use std::test::Fail;

    #[test]
    fn the_product_admits_records_and_arrays(rt: HostRuntime) {
        assert_eq!(rt; Product::kinds(), 2);
        let cases = [
            (0, 15, 15, true),
            (1, 63, 0, true),
            (0, 0, 0, false),
            (0, 16, 0, false),
            (1, 64, 0, false),
            (1, 63, 1, false),
            (2, 1, 0, false),
        ];
        for (kind, refs, words, admitted) in cases {
            let header = Product::header(Shape { kind, refs, words });
            assert_eq!(rt; header.is_some(), admitted);
        }
    }

    #[test]
    fn a_record_has_its_references_first(rt: HostRuntime) -> Result<(), Fail> {
        let shape = Shape {
            kind: 0,
            refs: 2,
            words: 3,
        };
        let header = Product::header(shape).ok_or("refused")?;
        assert_eq!(rt; Product::references(header), 2);
        assert_eq!(rt; Product::data_words(header), 3);
        assert_eq!(rt; Product::size(header), 6);
        for (i, offset) in [(1, Some(2)), (2, None)] {
            assert_eq!(rt; Product::reference_offset(header, i), offset);
        }
        for (j, offset) in [(0, Some(3)), (3, None)] {
            assert_eq!(rt; Product::word_offset(header, j), offset);
        }
        for (offset, i) in [(2, Some(1)), (3, None)] {
            assert_eq!(rt; Product::reference_at(header, offset), i);
        }
        Ok(())
    }

    // Kinds 0 and 1 are the product's, kind 2 is the third layout's.
    type Nested = Pair<Product, Record>;

    #[test]
    fn pairs_nest(rt: HostRuntime) -> Result<(), Fail> {
        assert_eq!(rt; Nested::kinds(), 3);
        let array = Shape {
            kind: 1,
            refs: 63,
            words: 0,
        };
        let array = Nested::header(array).ok_or("array refused")?;
        assert_eq!(rt; Nested::size(array), 64);
        let record = Shape {
            kind: 2,
            refs: 1,
            words: 4,
        };
        let header = Nested::header(record).ok_or("record refused")?;
        assert_eq!(rt; Nested::data_words(header), 4);
        assert_eq!(rt; Nested::header(Shape { kind: 3, ..record }), None);
        Ok(())
    }

    // Every reference is found again by its offset, and no offset beyond the object is a reference.
    fn is_a_header(rt: &impl Abort, word: u32) -> Result<(), Fail> {
        for i in 0..Product::references(word) {
            let offset = Product::reference_offset(word, i).ok_or("no offset")?;
            assert_eq!(rt; Product::reference_at(word, offset), Some(i));
        }
        assert_eq!(rt; Product::reference_at(word, 0), None);
        assert_eq!(rt; Product::reference_at(word, Product::size(word)), None);
        Ok(())
    }

    #[test]
    fn every_word_is_a_header(rt: HostRuntime) -> Result<(), Fail> {
        for word in (0..2048).chain([1 << 31, u32::MAX]) {
            is_a_header(&rt, word)?;
        }
        Ok(())
    }
}

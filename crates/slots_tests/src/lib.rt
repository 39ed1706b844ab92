// Tests of the slots that pairs lead to, in a small memory written out by hand.
#![tactic(auto)]

pub mod two_cars;

#[cfg(test)]
mod tests {
    use crate::two_cars::TwoCars;
    use arrayvec::ArrayVec;
    use layout::product::Product;
    use layout::{Layout, Shape};
    use remembered::RememberedSet;
    use remembered::card::CardSet;
    use remembered::slot::SlotSet;
    use slots::gather;
    use slots::survey::{Findings, survey_train};
    use std::process::Abort;
    use std::test::Fail;

    // Objects of two references and a data word: one in car 3, two in car 5, one in car 1. Each word holds nothing, or the
    // address of the object in car 3, but for one, which holds the first object in car 5.
    const WORDS: [(u32, u32); 12] = [
        (385, 384),
        (386, 8192),
        (387, 384),
        (641, 8192),
        (642, 384),
        (643, 384),
        (645, 384),
        (646, 640),
        (647, 384),
        (129, 384),
        (130, 384),
        (131, 384),
    ];

    fn memory(header: u32) -> [u32; 8192] {
        let mut words = [0; 8192];
        for (address, word) in WORDS {
            if address < 8192 {
                words[address as usize] = word;
            }
        }
        for address in [384, 640, 644, 128] {
            if address < 8192 {
                words[address] = header;
            }
        }
        words
    }

    fn header() -> Option<u32> {
        Product::header(Shape {
            kind: 0,
            refs: 2,
            words: 1,
        })
    }

    #[test]
    fn references_are_gathered_and_data_words_are_not(rt: HostRuntime) -> Result<(), Fail> {
        let words = memory(header().ok_or("refused")?);
        let mut set = CardSet::new();
        for address in [128, 384, 640] {
            set.note(3, address);
        }
        for (car, filled, first, second) in [
            (5, 8, Some(642), Some(645)),
            (5, 4, Some(642), None),
            (1, 4, Some(129), Some(130)),
            (3, 4, Some(385), None),
            (2, 0, None, None),
        ] {
            if car < 64 && filled <= 128 {
                let mut out: ArrayVec<u32, 8192> = ArrayVec::new();
                gather::<CardSet, Product>(&mut out, &words, &set, 3, car, filled);
                assert_eq!(rt; out.as_slice().first().copied(), first, "car {car}, first");
                assert_eq!(rt; out.as_slice().get(1).copied(), second, "car {car}, second");
                assert_eq!(rt; out.len() < 3, true);
            }
        }
        Ok(())
    }

    #[test]
    fn the_first_slot_goes_by_the_order_of_the_cars(rt: HostRuntime) -> Result<(), Fail> {
        let words = memory(header().ok_or("refused")?);
        let mut set = SlotSet::new();
        for address in [131, 130, 385, 643, 645, 642, 700] {
            set.note(3, address);
        }
        for (early, late, first) in [(5, 1, 642), (1, 5, 130), (5, 2, 642), (2, 1, 130)] {
            let cars = TwoCars { early, late };
            let found = survey_train::<SlotSet, Product, TwoCars>(&words, &set, &cars, &[3]);
            let expected = Findings {
                first: Some(first),
                looked: 7,
            };
            assert_eq!(rt; found, expected);
        }
        Ok(())
    }
}

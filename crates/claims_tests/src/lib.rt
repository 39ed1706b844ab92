//! What is claimed of a car laid out by hand, in which order.
#![tactic(auto)]

#[cfg(test)]
mod tests {
    use claims::{Claim, Claims};
    use layout::product::Product;
    use layout::{Layout, Shape};
    use std::process::Abort;
    use std::test::Fail;

    // The word of a reference that holds nothing.
    const NOTHING: u32 = 8192;

    // The header of a record.
    fn record(refs: u32, words: u32) -> Result<u32, Fail> {
        let shape = Shape {
            kind: 0,
            refs,
            words,
        };
        Ok(Product::header(shape).ok_or("refused")?)
    }

    // Car 1, whose first word has the address 128. Data words look like addresses in it.
    fn car() -> Result<[u32; 17], Fail> {
        Ok([
            // at 0, to 6 and to 3
            record(2, 0)?,
            134,
            131,
            // at 3, to 8
            record(1, 1)?,
            136,
            140,
            // at 6, to 10
            record(1, 0)?,
            138,
            // at 8
            record(0, 1)?,
            140,
            // at 10, back to 0
            record(1, 0)?,
            128,
            // at 12, to car 2, to nothing and to 0
            record(3, 1)?,
            256,
            NOTHING,
            128,
            131,
        ])
    }

    fn claim(rank: u32, place: u32) -> Claim {
        Claim { place, rank }
    }

    #[test]
    fn a_queue_and_no_stack(rt: HostRuntime) -> Result<(), Fail> {
        let mut words = [NOTHING; 8192];
        for (word, held) in words.iter_mut().skip(128).zip(car()?) {
            *word = held;
        }
        let mut claims = Claims::new();
        claims.claim::<Product>(&words, 1, NOTHING, 3);
        claims.claim::<Product>(&words, 1, 256, 3);
        assert_eq!(rt; claims.as_slice().len(), 0);
        // the object at 0, its two, and then theirs
        claims.claim::<Product>(&words, 1, 128, 2);
        let first = [0, 6, 3, 10, 8].map(|place| claim(2, place));
        assert_eq!(rt; claims.as_slice(), &first[..]);
        assert!(rt; claims.is_claimed(8));
        assert!(rt; !claims.is_claimed(12));
        // what is claimed stays as it is
        claims.claim::<Product>(&words, 1, 136, 0);
        claims.claim::<Product>(&words, 1, 140, 1);
        assert_eq!(rt; claims.as_slice().len(), 6);
        assert_eq!(rt; claims.as_slice().last(), Some(&claim(1, 12)));
        Ok(())
    }
}

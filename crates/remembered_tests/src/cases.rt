//! A case: something that a set is told, or a question with its answer.

use remembered::RememberedSet;
use remembered::count::pairs;

#[derive(Clone, Copy)]
pub enum Case {
    Note(u32, u32),
    // so many addresses of a car, from one on
    Notes(u32, u32, u32),
    Forget(u32),
    Next(u32, u32, Option<u32>),
    Pairs(u32, u32),
}

fn note_all<R: RememberedSet>(rset: &mut R, car: u32, from: u32, n: u32) {
    for i in 0..n {
        rset.note(car, from.wrapping_add(i));
    }
}

// Tells or asks the set, and says whether the answer is the expected one.
fn fits<R: RememberedSet>(rset: &mut R, case: Case) -> bool {
    match case {
        Case::Note(car, address) => rset.note(car, address),
        Case::Notes(car, from, n) => note_all(rset, car, from, n),
        Case::Forget(car) => rset.forget(car),
        Case::Next(car, from, answer) => return rset.next(car, from) == answer,
        Case::Pairs(car, answer) => return pairs(rset, car) == answer,
    }
    true
}

/// The place of the first case with another answer than expected, if there is one.
pub fn first_wrong<R: RememberedSet>(rset: &mut R, cases: &[Case]) -> Option<usize> {
    cases.iter().position(|case| !fits(rset, *case))
}

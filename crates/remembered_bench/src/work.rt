//! The work of one round: notes of drawn pairs, then each car counted and forgotten.

use remembered::RememberedSet;
use remembered::count::pairs;

/// The next number of a small generator.
pub fn draw(seed: u32) -> u32 {
    seed.wrapping_mul(1664525).wrapping_add(1013904223)
}

/// The car that a number stands for, in range.
pub fn car_of(seed: u32) -> u32 {
    seed / 0x400_0000
}

/// The address that a number stands for, in range.
pub fn address_of(seed: u32) -> u32 {
    seed / 256 % 8192
}

fn note_drawn<R: RememberedSet>(rset: &mut R, from: u32) -> u32 {
    let mut seed = from;
    for _ in 0..1500 {
        seed = draw(seed);
        rset.note(car_of(seed), address_of(seed));
    }
    seed
}

fn count_and_forget<R: RememberedSet>(rset: &mut R) -> u64 {
    let mut found: u64 = 0;
    for car in 0..64 {
        found = found.wrapping_add(u64::from(pairs(rset, car)));
        rset.forget(car);
    }
    found
}

/// How many pairs a set was seen to have.
pub fn with_set<R: RememberedSet>(rset: &mut R, rounds: u32) -> u64 {
    let mut seed = 1;
    let mut found: u64 = 0;
    for _ in 0..rounds {
        seed = note_drawn(rset, seed);
        found = found.wrapping_add(count_and_forget(rset));
    }
    found
}

//! The same work on a table with a flag for each car and address.
//!
//! The three functions repeat those of `work` step by step, since the two are compared by their times. One function for
//! both would need a trait for a table of flags, for this program alone.

use crate::work::{address_of, car_of, draw};

fn note_drawn(table: &mut [bool], from: u32) -> u32 {
    let mut seed = from;
    for _ in 0..1500 {
        seed = draw(seed);
        // `usize` has no `From<u32>`.
        let place = car_of(seed) as usize * 8192 + address_of(seed) as usize;
        if place < table.len() {
            table[place] = true;
        }
    }
    seed
}

fn count_and_forget(table: &mut [bool]) -> u64 {
    let mut found: u64 = 0;
    for flag in table.iter_mut() {
        if *flag {
            found = found.wrapping_add(1);
        }
        *flag = false;
    }
    found
}

/// How many flags were seen to be set.
pub fn with_table(table: &mut [bool], rounds: u32) -> u64 {
    let mut seed = 1;
    let mut found: u64 = 0;
    for _ in 0..rounds {
        seed = note_drawn(table, seed);
        found = found.wrapping_add(count_and_forget(table));
    }
    found
}

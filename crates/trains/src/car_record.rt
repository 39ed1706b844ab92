//! What is known of each car, by its number.

ghost use Rattle.std.specs.Prelude.{◌≡◌, ℕ, ◌+◌, ◌≤◌, length};
ghost use Rattle.trains.specs.Table.{free_record, record_at, car_gone, train_gone};

use crate::{CARS, TRAINS};

// The rank in the record of a car that is in no train.
const NO_RANK: u32 = TRAINS as u32;

// Whether a car is in use, how many of its words are filled, the rank of its train and its place in it.
#[derive(Clone, Copy)]
pub(crate) struct CarRecord {
    pub in_use: bool,
    pub filled: u32,
    pub rank: u32,
    pub place: u32,
}

impl CarRecord {
    // A free car.
    pub(crate) fn free() -> CarRecord
        ensures { result ≡ free_record }
    {
        CarRecord {
            in_use: false,
            filled: 0,
            rank: NO_RANK,
            place: 0,
        }
    }

    // Fills so many words more, and answers how many were filled before.
    pub(crate) fn grow(&mut self, size: u32) -> u32
        requires { self.old.filled + size ≤ 128 }
        ensures filled { self.new ≡ record self.old { filled = self.old.filled + size } }
        ensures before { result ≡ self.old.filled }
    {
        let before = self.filled;
        self.filled += size;
        before
    }

    // The record once the first car has left the first train.
    fn without_first_car(self) -> CarRecord
        ensures { result ≡ car_gone self }
    {
        if self.rank > 0 {
            return self;
        }
        if self.place == 0 {
            return CarRecord {
                rank: NO_RANK,
                ..self
            };
        }
        CarRecord {
            place: self.place - 1,
            ..self
        }
    }

    // The record once the first train has ended.
    fn without_first_train(self) -> CarRecord
        ensures { result ≡ train_gone self }
    {
        if self.rank == 0 {
            return CarRecord::free();
        }
        if self.rank >= NO_RANK {
            return self;
        }
        CarRecord {
            rank: self.rank - 1,
            ..self
        }
    }
}

// The table once the first car has left the first train.
pub(crate) fn first_car_gone(records: &mut [CarRecord; CARS])
    ensures each { (n : ℕ) → record_at records.new n ≡ car_gone (record_at records.old n) }
    ensures all { length records.new ≡ 64 }
{
    for record in records.iter_mut() {
        *record = record.without_first_car();
    }
}

// The table once the first train has ended.
pub(crate) fn first_train_gone(records: &mut [CarRecord; CARS])
    ensures each { (n : ℕ) → record_at records.new n ≡ train_gone (record_at records.old n) }
    ensures all { length records.new ≡ 64 }
{
    for record in records.iter_mut() {
        *record = record.without_first_train();
    }
}

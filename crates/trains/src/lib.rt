//! The cars and trains of a space in fixed memory, and placing in them.

#![tactic(auto)]

ghost use Rattle.std.specs.Prelude.{◌≡◌, nat_lt, is_some, ℕ, ◌<◌, ◌≤◌, [], length, Some, None, slice_index_or, option_map, IfSome, All};
ghost use Rattle.model.specs.Trains.{one_of};
ghost use Rattle.trains.specs.Apart.{CarsAreApart, InOneCar};
ghost use Rattle.trains.specs.Fills.{CarFill, fill_numbers, used_numbers, free_car, place_fill, spot_at, room_at, with_trains, placed, arrival_of, cars_of, first_number, first_taken, released, tail_fills};
ghost use Rattle.trains.specs.Orders.{rank_of, filled_of, stands_later};
ghost use Rattle.trains.specs.Table.{Known};

mod car_record;
pub mod laws;
mod train;

use crate::car_record::{CarRecord, first_car_gone, first_train_gone};
use crate::train::{Train, add_car, drop_first_car, last_car};
use arrayvec::ArrayVec;
use std::marker::Model;

/// How many words a car has.
pub const CAR_WORDS: u32 = 128;

/// How many cars there are.
pub const CARS: usize = 64;

/// How many trains stand at most.
pub const TRAINS: usize = 8;

/// The cars in use by their trains, and what is known of each by its number. One car may be in use and in no train: the one
/// that is being emptied.
#[derive(Drop)]
pub struct Trains {
    records: [CarRecord; CARS],
    trains: ArrayVec<Train, TRAINS>,
    busy: Option<u32>,
}

impl Model for Trains {
    ghost use Rattle.trains.specs.Fills.{Placement};
    ghost use Rattle.trains.specs.Table.{placement, Stands};

    ghost Value = { Placement };

    ghost view = { λ t. placement t.records t.trains.items t.busy };

    ghost invariant = { λ t. Stands t.records t.trains.items t.busy };
}

impl Trains {
    /// No trains: every car is free.
    pub fn new() -> Trains
        ensures { result ≡ record { trains = []; busy = None } }
    {
        Trains {
            records: [CarRecord::free(); CARS],
            trains: ArrayVec::new(),
            busy: None,
        }
    }

    /// The cars in use have different numbers below 64, none is overfull, and there are at most eight trains.
    pub fn cars_are_apart(&self)
        ensures { CarsAreApart self.now }
    {
        let _ = &self.records;
    }

    /// How many trains there are.
    pub fn count(&self) -> u32
        ensures value { result ≡ length self.now.trains }
        ensures few { result ≤ 8 }
    {
        self.trains.len() as u32
    }

    /// How many cars are in trains.
    pub fn cars(&self) -> u32
        ensures { result ≡ cars_of self.now.trains }
    {
        let mut cars = 0;
        for train in self.trains.as_slice() {
            cars += train.len();
        }
        cars
    }

    /// The cars of the train of a rank, in order.
    pub fn train(&self, rank: u32) -> &[u32]
        requires { rank < length self.now.trains }
        ensures cars { result.now ≡ fill_numbers (slice_index_or self.now.trains rank []) }
        ensures low { All (λ car. car < 64) result.now }
    {
        self.trains[rank as usize].as_slice()
    }

    /// The first car of the first train.
    pub fn first_car(&self) -> Option<u32>
        ensures car { result ≡ first_number self.now.trains }
        ensures low { IfSome result (λ car. car < 64) }
    {
        let first = self.trains.as_slice().first()?;
        first.as_slice().first().copied()
    }

    /// The rank where what is new arrives: from two trains on the rank behind the last one, if that has four cars at least and
    /// there are not eight yet; in all other cases the rank of the last. With one train it is 1, and with none 0.
    pub fn arrival(&self) -> u32
        ensures { result ≡ arrival_of self.now.trains }
    {
        let count = self.trains.len();
        if count < 2 {
            return count as u32;
        }
        if count < TRAINS && self.trains[count - 1].len() >= 4 {
            return count as u32;
        }
        count as u32 - 1
    }

    // What is known of a car, and of a number that no car has.
    fn record(&self, car: u32) -> CarRecord
        ensures { Known car result self.now }
    {
        match self.records.get(car as usize) {
            Some(record) => *record,
            None => CarRecord::free(),
        }
    }

    /// Whether a car is in a train, or is the one that is being emptied.
    pub fn is_in_use(&self, car: u32) -> bool
        ensures { result ≡ one_of car (used_numbers self.now) }
    {
        self.record(car).in_use
    }

    /// The rank of the train that has the car, or 8 if none has it.
    pub fn rank(&self, car: u32) -> u32
        ensures { result ≡ rank_of car self.now.trains }
    {
        self.record(car).rank
    }

    /// How many words of the car are filled.
    pub fn filled(&self, car: u32) -> u32
        ensures { result ≡ filled_of car self.now }
    {
        self.record(car).filled
    }

    /// Whether a car stands behind another in the order of all cars of trains.
    pub fn is_later(&self, car: u32, than: u32) -> bool
        ensures { result ≡ stands_later car than self.now.trains }
    {
        let (car, than) = (self.record(car), self.record(than));
        than.rank < car.rank || than.rank == car.rank && than.place < car.place
    }

    // The lowest free car, or the number of cars if none is free.
    fn lowest_free(&self) -> u32
        ensures { result ≡ free_car self.now }
    {
        for car in 0..CARS {
            if !self.records[car].in_use {
                return car as u32;
            }
        }
        CARS as u32
    }

    /// Whether a car is free.
    pub fn has_free_car(&self) -> bool
        ensures { result ≡ nat_lt (free_car self.now) 64 }
    {
        (self.lowest_free() as usize) < CARS
    }

    /// Whether a car is being emptied.
    pub fn is_emptying(&self) -> bool
        ensures { result ≡ is_some self.now.busy }
    {
        self.busy.is_some()
    }

    // The last car of the train of a rank, if it has room for so many words.
    fn last_with_room(&self, rank: u32, size: u32) -> Option<u32>
        requires { size ≤ 128 }
        ensures { result ≡ option_map (λ (c : CarFill). c.number) (room_at rank size self.now.trains) }
    {
        let last = last_car(&self.trains, rank)?;
        (self.records[last as usize].filled <= CAR_WORDS - size).then_some(last)
    }

    // Makes room in the last car of a train, and answers its address.
    fn fill(&mut self, car: u32, size: u32) -> u32
        requires { (rank : ℕ) × (option_map (λ (c : CarFill). c.number) (room_at rank size self.old.trains) ≡ Some car) }
        ensures trains { (rank n : ℕ) → option_map (λ (c : CarFill). c.number) (room_at rank size self.old.trains) ≡ Some car → self.new ≡ with_trains (place_fill rank n size self.old.trains) self.old }
        ensures address { (rank n : ℕ) → option_map (λ (c : CarFill). c.number) (room_at rank size self.old.trains) ≡ Some car → result ≡ spot_at rank n size self.old.trains }
        ensures within { InOneCar result size }
    {
        let record = &mut self.records[car as usize];
        CAR_WORDS * car + record.grow(size)
    }

    // Makes room in the lowest free car, which becomes the last of a train, and answers its address.
    fn open(&mut self, rank: u32, size: u32) -> u32
        requires near { rank ≤ length self.old.trains }
        requires low { rank < 8 }
        requires size { size ≤ 128 }
        requires free { free_car self.old < 64 }
        requires full { room_at rank size self.old.trains ≡ None }
        ensures trains { self.new ≡ placed rank size self.old }
        ensures address { result ≡ spot_at rank (free_car self.old) size self.old.trains }
        ensures within { InOneCar result size }
    {
        let car = self.lowest_free();
        let place = add_car(&mut self.trains, rank, car);
        self.records[car as usize] = CarRecord {
            in_use: true,
            filled: size,
            rank,
            place,
        };
        CAR_WORDS * car
    }

    /// Makes room for so many words in the train of a rank, and answers its address: in the last car if they fit, else in the
    /// lowest free car, which becomes the last. The rank behind the last train opens a train.
    pub fn place(&mut self, rank: u32, size: u32) -> u32
        requires near { rank ≤ length self.old.trains }
        requires low { rank < 8 }
        requires size { size ≤ 128 }
        requires free { free_car self.old < 64 }
        ensures trains { self.new ≡ placed rank size self.old }
        ensures address { result ≡ spot_at rank (free_car self.old) size self.old.trains }
        ensures within { InOneCar result size }
    {
        match self.last_with_room(rank, size) {
            Some(car) => self.fill(car, size),
            None => self.open(rank, size),
        }
    }

    /// The first car leaves its train, and is now the one that is being emptied. Its train may be left without cars.
    pub fn take_first(&mut self) -> Option<u32>
        requires { self.old.busy ≡ None }
        ensures car { result ≡ first_number self.old.trains }
        ensures trains { self.new ≡ first_taken self.old }
    {
        let car = self.first_car()?;
        drop_first_car(&mut self.trains);
        first_car_gone(&mut self.records);
        self.busy = Some(car);
        Some(car)
    }

    /// The first train ends, and its cars are free.
    pub fn free_first_train(&mut self)
        ensures { self.new ≡ with_trains (tail_fills self.old.trains) self.old }
    {
        if self.trains.is_empty() {
            return;
        }
        self.trains.remove(0);
        first_train_gone(&mut self.records);
    }

    // The car that was emptied is free.
    fn free_busy(&mut self)
        ensures { self.new ≡ record { trains = self.old.trains; busy = None } }
    {
        if let Some(car) = self.busy {
            self.records[car as usize] = CarRecord::free();
            self.busy = None;
        }
    }

    /// The car that was emptied is free, and a first train without cars ends.
    pub fn release(&mut self)
        ensures { self.new ≡ released self.old }
    {
        self.free_busy();
        if self.first_car().is_none() {
            self.free_first_train();
        }
    }
}

//! The cars of a train, and adding one to a train or to a new one.

ghost use Rattle.std.specs.Prelude.{◌≡◌, ℕ, ◌<◌, ◌≤◌, [], ◌∷◌, ◌++◌, length, slice_index_or};
ghost use Rattle.arrayvec.specs.ArrayVec.{array_vec_len};
ghost use Rattle.trains.specs.Table as table;

use crate::{CARS, TRAINS};
use arrayvec::ArrayVec;
use std::marker::Model;

// The numbers of a train's cars, in order.
#[derive(Drop)]
pub(crate) struct Train {
    cars: ArrayVec<u32, CARS>,
}

impl Model for Train {
    ghost use Rattle.std.specs.Prelude.{List, ℕ};

    ghost Value = { List ℕ };

    ghost view = { λ r. r.cars.items };
}

impl Default for Train {
    fn default() -> Train
        ensures { result ≡ [] }
    {
        Train {
            cars: ArrayVec::new(),
        }
    }
}

impl Train {
    // How many cars there are.
    pub(crate) fn len(&self) -> u32
        ensures value { result ≡ length self.now }
        ensures few { result ≤ 64 }
    {
        self.cars.len() as u32
    }

    // The cars, in order.
    pub(crate) fn as_slice(&self) -> &[u32]
        ensures { result.now ≡ self.now }
    {
        self.cars.as_slice()
    }

    // A car joins the train at its end.
    fn push(&mut self, car: u32)
        requires { length self.old < 64 }
        ensures { self.new ≡ self.old ++ car ∷ [] }
    {
        self.cars.push(car);
    }

    // The first car leaves.
    fn drop_first(&mut self)
        requires { 0 < length self.old }
        ensures { (car : ℕ) × (self.old ≡ car ∷ self.new) }
    {
        self.cars.remove(0);
    }
}

// Adds a car to the train of a rank at its end, or opens that train behind the last one. Answers the car's place.
pub(crate) fn add_car(trains: &mut ArrayVec<Train, TRAINS>, rank: u32, car: u32) -> u32
    requires near { rank ≤ array_vec_len trains.old }
    requires low { rank < 8 }
    requires room { length (slice_index_or trains.old.items rank []) < 64 }
    ensures trains { trains.new.items ≡ table.add_car rank car trains.old.items }
    ensures place { result ≡ length (slice_index_or trains.old.items rank []) }
{
    if rank as usize == trains.len() {
        trains.push(Train::default());
    }
    let place = trains[rank as usize].len();
    trains[rank as usize].push(car);
    place
}

// The first car of the first train leaves.
pub(crate) fn drop_first_car(trains: &mut ArrayVec<Train, TRAINS>)
    requires { 0 < length (slice_index_or trains.old.items 0 []) }
    ensures { trains.new.items ≡ table.first_dropped trains.old.items }
{
    trains[0].drop_first();
}

// The last car of the train of a rank.
pub(crate) fn last_car(trains: &ArrayVec<Train, TRAINS>, rank: u32) -> Option<u32>
    ensures { result ≡ table.last_at rank trains.now.items }
{
    let train = trains.as_slice().get(rank as usize)?;
    train.as_slice().last().copied()
}

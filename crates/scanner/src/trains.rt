// Trains in a row, each a row of cars, each a row of objects.
use crate::counts::total;
use crate::failure::Failure;
use crate::objects::{CAR_WORDS, ObjectId, Place};
use std::alloc::{AllocError, Global};
use std::collections::{VecDeque, vec_deque};

pub(crate) const CARS: usize = 64;

const MOST_TRAINS: usize = 8;

const LONG_TRAIN: usize = 4;

/// Where a car stands: its train's rank, and how many cars of that train are before it. The order of the fields makes
/// the earlier car the lesser place.
#[derive(Clone, Copy, PartialEq, Eq, PartialOrd, Ord)]
pub(crate) struct CarPlace {
    pub(crate) rank: usize,
    pub(crate) position: usize,
}

#[derive(Drop)]
pub(crate) struct Car {
    pub(crate) number: usize,
    pub(crate) objects: Vec<ObjectId>,
    filled: usize,
}

impl Car {
    fn new(heap: Global, number: usize) -> Car {
        Car {
            number,
            objects: Vec::new(heap),
            filled: 0,
        }
    }

    fn has_room(&self, size: usize) -> bool {
        self.filled.saturating_add(size) <= CAR_WORDS
    }

    fn put(&mut self, object: ObjectId, size: usize) -> Result<Place, Failure> {
        let place = Place {
            car: self.number,
            offset: self.filled,
        };
        self.objects.push(object)?;
        self.filled = self.filled.saturating_add(size);
        Ok(place)
    }
}

#[derive(Drop)]
pub(crate) struct Train {
    pub(crate) cars: VecDeque<Car>,
}

impl Train {
    fn last_has_room(&self, size: usize) -> bool {
        self.cars.back().is_some_and(|car| car.has_room(size))
    }

    fn position_of(&self, number: usize) -> Option<usize> {
        self.cars.iter().position(|car| car.number == number)
    }

    /// The numbers of the train's cars, in their order.
    pub(crate) fn car_numbers(&self, heap: Global) -> Result<Vec<usize>, AllocError> {
        self.cars.iter().map(|car| car.number).collect(heap)
    }
}

#[derive(Drop)]
pub(crate) struct Trains {
    by_rank: VecDeque<Train>,
}

impl Trains {
    pub(crate) fn new(heap: Global) -> Trains {
        Trains {
            by_rank: VecDeque::new(heap),
        }
    }

    pub(crate) fn len(&self) -> usize {
        self.by_rank.len()
    }

    pub(crate) fn first(&self) -> Option<&Train> {
        self.by_rank.front()
    }

    /// The trains by rank.
    pub(crate) fn iter(&self) -> vec_deque::Iter<'_, Train> {
        self.by_rank.iter()
    }

    /// How many cars the trains have together.
    pub(crate) fn cars(&self) -> usize {
        total(self.by_rank.iter().map(|train| train.cars.len()))
    }

    pub(crate) fn arrival_rank(&self) -> usize {
        let trains = self.by_rank.len();
        let last_cars = self.by_rank.back().map_or(0, |train| train.cars.len());
        match trains {
            0 => 0,
            1 => 1,
            _ if trains < MOST_TRAINS && last_cars >= LONG_TRAIN => trains,
            _ => trains - 1,
        }
    }

    /// Where a car stands, or none if it is free.
    pub(crate) fn car_place(&self, number: usize) -> Option<CarPlace> {
        self.by_rank.iter().enumerate().find_map(|(rank, train)| {
            train
                .position_of(number)
                .map(|position| CarPlace { rank, position })
        })
    }

    /// Says whether a car is one of the first train's.
    pub(crate) fn first_has(&self, number: usize) -> bool {
        self.first()
            .is_some_and(|train| train.position_of(number).is_some())
    }

    // The free car of the lowest number.
    fn free_car(&self) -> Option<usize> {
        (0..CARS).find(|number| self.car_place(*number).is_none())
    }

    /// Puts an object into the train's last car, or, where that has no room for it, into a free car that follows it.
    /// A rank that equals the number of trains opens a train.
    pub(crate) fn place(
        &mut self,
        heap: Global,
        rank: usize,
        object: ObjectId,
        size: usize,
    ) -> Result<Place, Failure> {
        if rank == self.by_rank.len() {
            self.by_rank.push_back(Train {
                cars: VecDeque::new(heap),
            })?;
        }
        let train = self.by_rank.get(rank).ok_or(Failure::NoCar)?;
        // All cars are gone through for a free one, so only where one is needed.
        let opened = if train.last_has_room(size) {
            None
        } else {
            Some(self.free_car().ok_or(Failure::NoCar)?)
        };
        let train = self.by_rank.get_mut(rank).ok_or(Failure::NoCar)?;
        if let Some(number) = opened {
            train.cars.push_back(Car::new(heap, number))?;
        }
        let last = train.cars.back_mut().ok_or(Failure::NoCar)?;
        last.put(object, size)
    }

    /// Takes the first car of the first train away, and a train that has no car left.
    pub(crate) fn drop_first_car(&mut self) {
        let Some(train) = self.by_rank.front_mut() else {
            return;
        };
        train.cars.pop_front();
        if train.cars.is_empty() {
            self.drop_first_train();
        }
    }

    pub(crate) fn drop_first_train(&mut self) {
        self.by_rank.pop_front();
    }
}

// The whole space. References are found by looking at every object that lies in a car.
use crate::counts::total;
use crate::failure::Failure;
use crate::objects::{Object, ObjectId, Place, Shape};
use crate::requests::MoveRequest;
use crate::sets::{Choice, Pair, Remembered};
use crate::trains::{CarPlace, Trains};
use std::alloc::Global;

const ROOTS: usize = 32;

/// A reference that holds an object, and where its car stands.
#[derive(Clone, Copy)]
pub(crate) struct Slot {
    pub(crate) owner: ObjectId,
    pub(crate) car_place: CarPlace,
    pub(crate) address: usize,
    pub(crate) holds: ObjectId,
}

impl Slot {
    /// The slot keeps what it holds in its own train.
    pub(crate) fn request(&self) -> MoveRequest {
        MoveRequest {
            object: self.holds,
            rank: self.car_place.rank,
        }
    }
}

/// A space. It is fed call by call, as a play does from a script's lines.
#[derive(Drop)]
pub struct Space {
    pub(crate) heap: Global,
    /// Every object ever made, the lost ones too.
    pub(crate) objects: Vec<Object>,
    pub(crate) roots: [Option<ObjectId>; ROOTS],
    pub(crate) trains: Trains,
    /// The guard against futile steps: an object of the first train, and the rank that it is to be carried to.
    pub(crate) mark: Option<MoveRequest>,
    pub(crate) remembered: Remembered,
}

impl Space {
    /// A space with empty roots and no objects.
    pub fn open(heap: Global, choice: Choice) -> Space {
        Space {
            heap,
            objects: Vec::new(heap),
            roots: [None; ROOTS],
            trains: Trains::new(heap),
            mark: None,
            remembered: Remembered::new(heap, choice),
        }
    }

    /// The object of a number, to look at.
    pub(crate) fn object(&self, id: ObjectId) -> Result<&Object, Failure> {
        self.objects.get(id.0).ok_or(Failure::NoObject)
    }

    /// The object of a number, to change; it stands to `object` as `get_mut` to `get`.
    pub(crate) fn object_mut(&mut self, id: ObjectId) -> Result<&mut Object, Failure> {
        self.objects.get_mut(id.0).ok_or(Failure::NoObject)
    }

    /// Where the object lies, and where its car stands; none once it is lost.
    pub(crate) fn whereabouts(&self, id: ObjectId) -> Result<Option<(Place, CarPlace)>, Failure> {
        let place = self.object(id)?.place;
        Ok(place.and_then(|place| {
            self.trains
                .car_place(place.car)
                .map(|car_place| (place, car_place))
        }))
    }

    pub(crate) fn words_in_use(&self) -> usize {
        total(self.objects.iter().map(Object::words_in_car))
    }

    /// Places a new object at the arrival rank.
    pub(crate) fn add(&mut self, shape: Shape) -> Result<ObjectId, Failure> {
        let id = ObjectId(self.objects.len());
        let rank = self.trains.arrival_rank();
        let place = self.trains.place(self.heap, rank, id, shape.size())?;
        self.objects.push(Object::new(self.heap, shape, place)?)?;
        Ok(id)
    }

    /// Notes a slot, if what it holds lies in an earlier car than the slot itself.
    pub(crate) fn note_slot(&mut self, slot: Slot) -> Result<(), Failure> {
        // A `match`, since the one arm can fail: a chain would need `transpose`.
        match self.whereabouts(slot.holds)? {
            Some((place, car_place)) if slot.car_place > car_place => self.remembered.note(Pair {
                car: place.car,
                address: slot.address,
            }),
            _ => Ok(()),
        }
    }

    /// Every slot that holds an object: the cars in their order, and in a car the addresses in theirs.
    pub(crate) fn slots(&self) -> Result<Vec<Slot>, Failure> {
        let mut slots = Vec::new(self.heap);
        for (rank, train) in self.trains.iter().enumerate() {
            for (position, car) in train.cars.iter().enumerate() {
                self.add_slots(&mut slots, CarPlace { rank, position }, &car.objects)?;
            }
        }
        Ok(slots)
    }

    fn add_slots(
        &self,
        slots: &mut Vec<Slot>,
        car_place: CarPlace,
        owners: &[ObjectId],
    ) -> Result<(), Failure> {
        for &owner in owners {
            let object = self.object(owner)?;
            let Some(place) = object.place else {
                continue;
            };
            // A `push` for each: `extend` over a filtered row takes a sixth more instructions, in what is half of a step.
            for (index, held) in object.refs.iter().enumerate() {
                if let Some(holds) = *held {
                    slots.push(Slot {
                        owner,
                        car_place,
                        address: place.slot_address(index),
                        holds,
                    })?;
                }
            }
        }
        Ok(())
    }
}

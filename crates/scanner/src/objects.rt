// Objects: what they hold and where they lie.
use std::alloc::{AllocError, Global};

pub(crate) const CAR_WORDS: usize = 128;

/// An object's number in the order of making. It stays the same wherever the object is carried, and is not given again.
/// Objects hold one another in circles, so they are named by numbers and not owned by one another.
#[derive(Clone, Copy, PartialEq, Eq)]
pub(crate) struct ObjectId(pub(crate) usize);

/// How many references and data words an object has.
#[derive(Clone, Copy)]
pub(crate) struct Shape {
    pub(crate) refs: usize,
    pub(crate) words: usize,
}

impl Shape {
    /// Kind 0 is a record and kind 1 an array; no other shape is admitted. A kind goes no further than this, so it has no
    /// type of its own.
    pub(crate) fn admitted(kind: u32, refs: u32, words: u32) -> Option<Shape> {
        let fits = match kind {
            0 => refs <= 15 && words <= 15 && (refs > 0 || words > 0),
            1 => 1 <= refs && refs <= 63 && words == 0,
            _ => false,
        };
        // `usize` has no `From<u32>`.
        fits.then_some(Shape {
            refs: refs as usize,
            words: words as usize,
        })
    }

    /// The header counts too.
    pub(crate) fn size(self) -> usize {
        self.refs.saturating_add(self.words).saturating_add(1)
    }
}

/// Where an object's header lies: the car's number, and words from the car's beginning.
#[derive(Clone, Copy)]
pub(crate) struct Place {
    pub(crate) car: usize,
    pub(crate) offset: usize,
}

impl Place {
    /// References follow the header in records and in arrays.
    pub(crate) fn slot_address(self, index: usize) -> usize {
        let car_begin = self.car.saturating_mul(CAR_WORDS);
        car_begin
            .saturating_add(self.offset)
            .saturating_add(1)
            .saturating_add(index)
    }
}

#[derive(Drop)]
pub(crate) struct Object {
    pub(crate) refs: Vec<Option<ObjectId>>,
    pub(crate) words: Vec<u32>,
    /// None once the object is lost.
    pub(crate) place: Option<Place>,
}

impl Object {
    pub(crate) fn new(heap: Global, shape: Shape, place: Place) -> Result<Object, AllocError> {
        Ok(Object {
            refs: vec![in heap; None; shape.refs]?,
            words: vec![in heap; 0; shape.words]?,
            place: Some(place),
        })
    }

    pub(crate) fn size(&self) -> usize {
        Shape {
            refs: self.refs.len(),
            words: self.words.len(),
        }
        .size()
    }

    /// How many words of a car the object takes; none once it is lost.
    pub(crate) fn words_in_car(&self) -> usize {
        self.place.map_or(0, |_| self.size())
    }

    pub(crate) fn lies_in(&self, car: usize) -> bool {
        self.place.is_some_and(|place| place.car == car)
    }
}

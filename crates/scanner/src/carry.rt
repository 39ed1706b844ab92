// Carrying objects out of the first car, in Cheney's order.
use crate::failure::Failure;
use crate::objects::{CAR_WORDS, ObjectId};
use crate::requests::{MoveRequest, MoveRequests};
use crate::space::Space;
use std::alloc::Global;

/// What a step has carried out of the car `front` so far, in order of placing.
#[derive(Drop)]
pub(crate) struct Carried {
    front: usize,
    pub(crate) objects: Vec<ObjectId>,
    pub(crate) out: u8,
    pub(crate) back: u8,
    pub(crate) words: usize,
}

impl Carried {
    fn none(heap: Global, front: usize) -> Carried {
        Carried {
            front,
            objects: Vec::new(heap),
            out: 0,
            back: 0,
            words: 0,
        }
    }

    fn add(&mut self, request: MoveRequest, size: usize) -> Result<(), Failure> {
        self.objects.push(request.object)?;
        self.words = self.words.saturating_add(size);
        if request.rank == 0 {
            self.back = self.back.saturating_add(1);
        } else {
            self.out = self.out.saturating_add(1);
        }
        Ok(())
    }
}

impl Space {
    /// Carries out of the car `front` what is asked to move: by roots, by the mark, by other trains, and by the first
    /// train.
    pub(crate) fn carry_requested(
        &mut self,
        front: usize,
        requests: &MoveRequests,
    ) -> Result<Carried, Failure> {
        let mut carried = Carried::none(self.heap, front);
        let in_order = requests
            .of_roots
            .iter()
            .chain(&requests.of_mark)
            .chain(&requests.of_other_trains)
            .chain(&requests.of_first_train);
        for request in in_order {
            self.carry(*request, &mut carried)?;
        }
        Ok(carried)
    }

    // Places the object in its train, then what its references hold of the car, and so on in order of placing.
    fn carry(&mut self, request: MoveRequest, carried: &mut Carried) -> Result<(), Failure> {
        let begin = carried.objects.len();
        self.carry_one(request, carried)?;
        // The row of objects grows while it is read, so no iterator can hold it. A car has fewer objects than words.
        for turn in 0..CAR_WORDS {
            let Some(&object) = carried.objects.get(begin.saturating_add(turn)) else {
                break;
            };
            self.carry_held(object, request.rank, carried)?;
        }
        Ok(())
    }

    // Carries what this object's references hold of the car, by reference number.
    fn carry_held(
        &mut self,
        owner: ObjectId,
        rank: usize,
        carried: &mut Carried,
    ) -> Result<(), Failure> {
        // By numbers, since carrying changes the space; a row of what is held would be made for each object.
        for index in 0..self.object(owner)?.refs.len() {
            let held = self.object(owner)?.refs.get(index).copied().flatten();
            if let Some(object) = held {
                self.carry_one(MoveRequest { object, rank }, carried)?;
            }
        }
        Ok(())
    }

    // An object that is not, or no longer, in the car stays where it is.
    fn carry_one(&mut self, request: MoveRequest, carried: &mut Carried) -> Result<(), Failure> {
        let object = self.object(request.object)?;
        if !object.lies_in(carried.front) {
            return Ok(());
        }
        let size = object.size();
        let place = self
            .trains
            .place(self.heap, request.rank, request.object, size)?;
        self.object_mut(request.object)?.place = Some(place);
        carried.add(request, size)
    }
}

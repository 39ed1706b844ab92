// Which objects of the first train are asked to move, and to which train.
use crate::failure::Failure;
use crate::objects::ObjectId;
use crate::space::{Slot, Space};

/// What one reference, or the mark, asks for an object of the first train: the rank of the train that it is to go to.
#[derive(Clone, Copy)]
pub(crate) struct MoveRequest {
    pub(crate) object: ObjectId,
    pub(crate) rank: usize,
}

/// The requests of one step, in their order.
#[derive(Drop)]
pub(crate) struct MoveRequests {
    pub(crate) of_roots: Vec<MoveRequest>,
    pub(crate) of_mark: Option<MoveRequest>,
    pub(crate) of_other_trains: Vec<MoveRequest>,
    pub(crate) of_first_train: Vec<MoveRequest>,
}

impl MoveRequests {
    /// The first outside reference: a root, or a slot of another train.
    pub(crate) fn first_outside(&self) -> Option<MoveRequest> {
        let of_slots = self.of_other_trains.first();
        self.of_roots.first().or(of_slots).copied()
    }
}

impl Space {
    /// All requests as they stand now; `slots` has every slot, in the order that `Space::slots` gives. Slots of other
    /// trains send what they hold to their own train; slots in the other cars of the first train keep it in that
    /// train.
    pub(crate) fn requests(&self, slots: &[Slot]) -> Result<MoveRequests, Failure> {
        Ok(MoveRequests {
            of_roots: self.root_requests()?,
            of_mark: self.mark,
            of_other_trains: self.slot_requests(slots, |slot| slot.car_place.rank > 0)?,
            of_first_train: self.slot_requests(slots, |slot| {
                slot.car_place.rank == 0 && slot.car_place.position > 0
            })?,
        })
    }

    fn in_first_train(&self, object: ObjectId) -> Result<bool, Failure> {
        let place = self.object(object)?.place;
        Ok(place.is_some_and(|place| self.trains.first_has(place.car)))
    }

    // Roots, by number, send what they hold to the arrival rank.
    fn root_requests(&self) -> Result<Vec<MoveRequest>, Failure> {
        let rank = self.trains.arrival_rank();
        let mut requests = Vec::new(self.heap);
        for &object in self.roots.iter().flatten() {
            if self.in_first_train(object)? {
                requests.push(MoveRequest { object, rank })?;
            }
        }
        Ok(requests)
    }

    // What the slots that `picks` lets through ask for objects of the first train.
    fn slot_requests<F: Fn(&Slot) -> bool>(
        &self,
        slots: &[Slot],
        picks: F,
    ) -> Result<Vec<MoveRequest>, Failure>
        requires { F.IsAlwaysCallable picks }
    {
        let mut requests = Vec::new(self.heap);
        for slot in slots.iter().filter(|slot| picks(slot)) {
            if self.in_first_train(slot.holds)? {
                requests.push(slot.request())?;
            }
        }
        Ok(requests)
    }
}

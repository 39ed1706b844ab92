// One step of the collector: the first train is freed whole, or its first car is emptied.
use crate::counts::{capped, total};
use crate::failure::Failure;
use crate::objects::ObjectId;
use crate::requests::{MoveRequest, MoveRequests};
use crate::space::Space;
use script::{Report, StepKind};

// What a step reports for an empty space.
const IDLE: Report = Report {
    kind: StepKind::Idle,
    out: 0,
    back: 0,
    copied: 0,
    lost: 0,
    looked: 0,
    cars: 0,
};

impl Space {
    pub(crate) fn step(&mut self) -> Result<Report, Failure> {
        let Some(train) = self.trains.first() else {
            return Ok(IDLE);
        };
        let cars = train.car_numbers(self.heap)?;
        let looked = self.pairs_for(&cars);
        let slots = self.slots()?;
        let requests = self.requests(&slots)?;
        match (requests.first_outside(), cars.first()) {
            (Some(outside), Some(front)) => self.empty_car(*front, &requests, outside, looked),
            _ => Ok(self.free_train(&cars, looked)),
        }
    }

    // All pairs that the remembered set has for these cars.
    fn pairs_for(&self, cars: &[usize]) -> usize {
        total(cars.iter().map(|car| self.remembered.count(*car)))
    }

    fn free_train(&mut self, cars: &[usize], looked: usize) -> Report {
        let mut lost: usize = 0;
        for car in cars {
            lost = lost.saturating_add(self.lose_objects(*car));
            self.remembered.forget(*car);
        }
        self.trains.drop_first_train();
        self.mark = None;
        Report {
            kind: StepKind::Train,
            lost: capped(lost, u16::MAX),
            looked: capped(looked, u32::MAX),
            cars: capped(cars.len(), u8::MAX),
            ..IDLE
        }
    }

    // Carries out of the first car what is asked to move, and frees the car with what is left there.
    fn empty_car(
        &mut self,
        front: usize,
        requests: &MoveRequests,
        outside: MoveRequest,
        looked: usize,
    ) -> Result<Report, Failure> {
        let mark_goes = self.mark_lies_in(front)?;
        let carried = self.carry_requested(front, requests)?;
        let lost = self.lose_objects(front);
        self.trains.drop_first_car();
        self.remembered.forget(front);
        self.note_carried(&carried.objects)?;
        self.update_mark(mark_goes, carried.out, outside);
        Ok(Report {
            kind: StepKind::Car,
            out: carried.out,
            back: carried.back,
            copied: capped(carried.words, u8::MAX),
            lost: capped(lost, u16::MAX),
            looked: capped(looked, u32::MAX),
            cars: 1,
        })
    }

    fn mark_lies_in(&self, car: usize) -> Result<bool, Failure> {
        // A `match`, since the one arm can fail: a chain would need `transpose`.
        match self.mark {
            Some(mark) => Ok(self.object(mark.object)?.lies_in(car)),
            None => Ok(false),
        }
    }

    // A step from which nothing left the first train sets a mark, unless one stands.
    fn update_mark(&mut self, mark_goes: bool, out: u8, outside: MoveRequest) {
        if mark_goes {
            self.mark = None;
        }
        if out == 0 && self.mark.is_none() {
            self.mark = Some(outside);
        }
    }

    // Objects that lie in this car are lost; says how many.
    fn lose_objects(&mut self, car: usize) -> usize {
        let lost = self.objects.iter_mut().map(|object| object
            .place
            .take_if(|place| place.car == car)
            .is_some());
        total(lost.map(usize::from))
    }

    // Notes the slots that were corrected, then the slots of each carried object, in the order of carrying.
    fn note_carried(&mut self, carried: &[ObjectId]) -> Result<(), Failure> {
        let slots = self.slots()?;
        // Where the slots of each carried object begin: they stand together.
        let mut begins = vec![in self.heap; slots.len(); carried.len()]?;
        for (index, &slot) in slots.iter().enumerate() {
            match carried.iter().position(|object| *object == slot.owner) {
                Some(place) => {
                    if let Some(begin) = begins.get_mut(place) {
                        *begin = index.min(*begin);
                    }
                }
                None if carried.contains(&slot.holds) => self.note_slot(slot)?,
                None => {}
            }
        }
        for (object, &begin) in carried.iter().zip(&begins) {
            let own = slots.get(begin..).unwrap_or(&[]);
            for &slot in own.iter().take_while(|slot| slot.owner == *object) {
                self.note_slot(slot)?;
            }
        }
        Ok(())
    }
}

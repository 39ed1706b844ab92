// The calls. A refused call leaves the space as it was.
use crate::counts::capped;
use crate::failure::Failure;
use crate::objects::{ObjectId, Shape};
use crate::space::{Slot, Space};
use script::{Access, Answer, Call, Refusal, Usage};
use thiserror::Error;

const MOST_WORDS: usize = 3072;

// Why a call has no answer of its own.
#[derive(Clone, Copy, Debug, Error)]
enum CallError {
    #[error("the call is refused: {0:?}")]
    Refused(#[from] Refusal),
    #[error(transparent)]
    Stopped(#[from] Failure),
}

impl Space {
    /// Does the call, and gives its answer.
    pub fn answer(&mut self, call: Call) -> Result<Answer, Failure> {
        self.perform(call).or_else(|error| match error {
            CallError::Refused(refusal) => Ok(Answer::Refused(refusal)),
            CallError::Stopped(failure) => Err(failure),
        })
    }

    fn perform(&mut self, call: Call) -> Result<Answer, CallError> {
        match call {
            Call::Make {
                root,
                kind,
                refs,
                words,
            } => self.make(root, kind, refs, words),
            Call::Access(access) => self.access(access),
            Call::Step => Ok(Answer::Step(self.step()?)),
            Call::Tally => Ok(Answer::Tally(self.tally())),
        }
    }

    fn access(&mut self, access: Access) -> Result<Answer, CallError> {
        match access {
            Access::Link { root, slot, from } => self.link(root, slot, from),
            Access::Follow { root, from, slot } => self.follow(root, from, slot),
            Access::Drop { root } => Ok(self.set_root(root, None)?),
            Access::Put { root, word, value } => self.put(root, word, value),
            Access::Lift { root, word, by } => self.lift(root, word, by),
            Access::Get { root, word } => Ok(Answer::Value(self.data_word(root, word)?)),
            Access::Words { root, room } => self.words(root, room),
            Access::Same { root, other } => Ok(Answer::Same(self.root(root)? == self.root(other)?)),
        }
    }

    // A `u32` is widened by `as` here and below: `usize` has no `From<u32>`.
    fn root(&self, number: u32) -> Result<Option<ObjectId>, Refusal> {
        let held = self.roots.get(number as usize);
        held.copied().ok_or(Refusal::Root)
    }

    fn root_object(&self, number: u32) -> Result<ObjectId, Refusal> {
        self.root(number)?.ok_or(Refusal::Empty)
    }

    fn set_root(&mut self, number: u32, held: Option<ObjectId>) -> Result<Answer, Refusal> {
        let root = self.roots.get_mut(number as usize).ok_or(Refusal::Root)?;
        *root = held;
        Ok(Answer::Done)
    }

    fn make(&mut self, root: u32, kind: u32, refs: u32, words: u32) -> Result<Answer, CallError> {
        self.root(root)?;
        let shape = Shape::admitted(kind, refs, words).ok_or(Refusal::Shape)?;
        if self.words_in_use().saturating_add(shape.size()) > MOST_WORDS {
            return Err(Refusal::Full.into());
        }
        let object = self.add(shape)?;
        Ok(self.set_root(root, Some(object))?)
    }

    fn link(&mut self, root: u32, slot: u32, from: u32) -> Result<Answer, CallError> {
        let held = self.root(from)?;
        let owner = self.root_object(root)?;
        self.set_reference(owner, slot as usize, held)?;
        if let Some(holds) = held {
            self.note_reference(owner, slot as usize, holds)?;
        }
        Ok(Answer::Done)
    }

    fn set_reference(
        &mut self,
        owner: ObjectId,
        index: usize,
        held: Option<ObjectId>,
    ) -> Result<(), CallError> {
        let object = self.object_mut(owner)?;
        let reference = object.refs.get_mut(index).ok_or(Refusal::Missing)?;
        *reference = held;
        Ok(())
    }

    fn note_reference(
        &mut self,
        owner: ObjectId,
        index: usize,
        holds: ObjectId,
    ) -> Result<(), Failure> {
        // A `match`, since the one arm can fail: a chain would need `transpose`.
        match self.whereabouts(owner)? {
            Some((place, car_place)) => self.note_slot(Slot {
                owner,
                car_place,
                address: place.slot_address(index),
                holds,
            }),
            None => Ok(()),
        }
    }

    fn follow(&mut self, root: u32, from: u32, slot: u32) -> Result<Answer, CallError> {
        self.root(root)?;
        let owner = self.root_object(from)?;
        let reference = self.object(owner)?.refs.get(slot as usize);
        let held = reference.copied().ok_or(Refusal::Missing)?;
        Ok(self.set_root(root, held)?)
    }

    fn data_word(&self, root: u32, word: u32) -> Result<u32, CallError> {
        let owner = self.root_object(root)?;
        let value = self.object(owner)?.words.get(word as usize);
        Ok(value.copied().ok_or(Refusal::Missing)?)
    }

    fn put(&mut self, root: u32, word: u32, value: u32) -> Result<Answer, CallError> {
        let owner = self.root_object(root)?;
        let object = self.object_mut(owner)?;
        let place = object.words.get_mut(word as usize).ok_or(Refusal::Missing)?;
        *place = value;
        Ok(Answer::Done)
    }

    fn lift(&mut self, root: u32, word: u32, by: i32) -> Result<Answer, CallError> {
        let old = self.data_word(root, word)?;
        let value = old.checked_add_signed(by).ok_or(Refusal::Range)?;
        self.put(root, word, value)
    }

    // The buffer is the caller's, and only its room is known here: nothing is written to it.
    fn words(&self, root: u32, room: usize) -> Result<Answer, CallError> {
        let owner = self.root_object(root)?;
        let count = self.object(owner)?.words.len();
        if room < count {
            return Err(Refusal::Buffer.into());
        }
        Ok(Answer::Words(capped(count, u32::MAX)))
    }

    fn tally(&self) -> Usage {
        Usage {
            words: capped(self.words_in_use(), u32::MAX),
            cars: capped(self.trains.cars(), u32::MAX),
            trains: capped(self.trains.len(), u32::MAX),
            mark: self.mark.is_some(),
        }
    }
}

//! The cars behind the first train, as a survey asks about them.

ghost use Rattle.std.specs.Prelude.{ℕ, Bool, ◌&&◌, nat_lt, min};
ghost use Rattle.trains.specs.Fills.{Placement};
ghost use Rattle.trains.specs.Orders.{rank_of, filled_of, stands_later};
ghost use Rattle.steps.specs.Others.{is_other, other_words, is_later};

use slots::survey::Cars;
use trains::{CAR_WORDS, TRAINS, Trains};

// The cars of trains, of which a survey looks at those behind the first train.
#[derive(Clone, Copy)]
pub(crate) struct OtherCars<'a> {
    pub trains: &'a Trains,
}

impl<'a> Cars for OtherCars<'a> {
    ghost outside = { λ s. is_other s.trains.now };

    ghost filled_words = { λ s. other_words s.trains.now };

    ghost later = { λ s. is_later s.trains.now };

    fn is_outside(&self, car: u32) -> bool {
        let rank = self.trains.rank(car);
        0 < rank && rank < TRAINS as u32
    }

    fn filled(&self, car: u32) -> u32 {
        self.trains.filled(car).min(CAR_WORDS)
    }

    fn is_later(&self, car: u32, than: u32) -> bool {
        self.trains.is_later(car, than)
    }
}

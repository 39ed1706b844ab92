//! Two cars behind the first train, one before the other.
ghost use Rattle.std.specs.Prelude.{◌≡◌, ◌||◌, ◌&&◌, ◌==◌, if◌then◌else◌};

use slots::survey::Cars;

/// The numbers of the two cars. Car 5 has eight words filled, and any other has four.
#[derive(Clone, Copy)]
pub struct TwoCars {
    pub early: u32,
    pub late: u32,
}

impl Cars for TwoCars {
    ghost outside = { λ s n. n == s.early || n == s.late };

    ghost filled_words = { λ s n. if n == 5 then 8 else 4 };

    ghost later = { λ s n m. n == s.late && m == s.early };

    fn is_outside(&self, car: u32) -> bool {
        car == self.early || car == self.late
    }

    fn filled(&self, car: u32) -> u32 {
        if car == 5 { 8 } else { 4 }
    }

    fn is_later(&self, car: u32, than: u32) -> bool {
        car == self.late && than == self.early
    }
}

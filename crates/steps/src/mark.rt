//! The mark at the end of a step.

ghost use Rattle.std.specs.Prelude.{◌≡◌};
ghost use Rattle.steps.specs.Marks as marks;
ghost use Rattle.steps.specs.Marks.{guarded, MarksFollow};

use memory::Mark;
use trains::CAR_WORDS;

/// The mark once a car is freed: it goes if its object lay in that car.
pub(crate) fn mark_left(mark: Option<Mark>, car: u32) -> Option<Mark>
    ensures { result ≡ marks.mark_left car mark }
{
    match mark {
        Some(mark) if mark.object / CAR_WORDS == car => None,
        mark => mark,
    }
}

/// The guard against futile steps: with no mark, and no object that left the first train, the mark that the first reference
/// from outside asks for is set.
pub(crate) fn set_mark(mark: Option<Mark>, out: u32, asked: Mark) -> Option<Mark>
    ensures { result ≡ guarded mark out asked }
{
    match mark {
        None if out == 0 => Some(asked),
        mark => mark,
    }
}

/// Both do with the address of a mark's object what a step does with its identity.
#[tactic(auto, using(crate::proofs::MarkLaws::marks_follow))]
pub fn marks_follow_the_model()
    ensures { MarksFollow }
{}

// The definition of the space (specs/), and the laws over whole uses that are proved of it: for every layout, every use and
// whatever the remembered set. No code stands here; the functions carry the laws in their contracts.
#![tactic(auto)]

ghost use Rattle.std.specs.Prelude.{◌≡◌};
ghost use Rattle.model.specs.Calls.{History};
ghost use Rattle.model.specs.DataWords.{DataWordsAreWords};
ghost use Rattle.model.specs.Exact.{ExactSetsReplyByTheCalls};
ghost use Rattle.model.specs.Examples.{WorkedExamples};
ghost use Rattle.model.specs.Laws.{AnswersAreThePlainGraphs, StepsNeverFail, WasteNearTheFrontLeavesSooner, WasteLeavesInCountedSteps, WordsInUseAreOfTheReachableAndTheNew, LawsOf};
ghost use Rattle.model.specs.Refusals.{RefusalsFollowTheTable};
ghost use Rattle.model.specs.Remembered.{NothingOverlooked, NoReferenceIsOverlooked};
ghost use Rattle.model.specs.Space.{space_of, updates_of};
ghost use Rattle.remembered.specs.Leads.{Leads};

use layout::Layout;
use remembered::RememberedSet;

/// At every halt each answer is the plain graph's, and so is what was written to a buffer; a make is refused as full exactly
/// when the words would exceed the capacity, and the roots reach the same in both.
pub fn answers_are_the_plain_graphs()
    ensures { AnswersAreThePlainGraphs }
{}

/// A call is refused exactly if a condition of the table of refusals holds, with the smallest number whose condition does;
/// then the space stays as it was, the remembered set is told nothing, and nothing is written.
#[tactic(auto, using(crate::proofs::Refuses::refusals_law))]
pub fn refusals_follow_the_table()
    ensures { RefusalsFollowTheTable }
{}

/// Cars and trains stand as they should and each car is in one place, also at every moment of a step, when a free car is
/// there too; a step copies at most the words of one car, nothing reachable is lost, and nothing dangles.
#[tactic(auto, using(crate::proofs::NeverFail::never_fail_law))]
pub fn steps_never_fail()
    ensures { StepsNeverFail }
{}

/// With j the highest rank of a train that has waste, or that a mark on waste sends to, the waste of a halt is gone after
/// (j + 1) × 99,840 further steps, whatever else is called between them.
#[tactic(auto, using(crate::proofs::WasteLaws::waste_near_the_front))]
pub fn waste_near_the_front_leaves_sooner()
    ensures { WasteNearTheFrontLeavesSooner }
{}

/// With t trains at a halt its waste is gone after (t + 1) × 99,840 further steps, whatever else is called between them.
#[tactic(auto, using(crate::proofs::WasteLaws::waste_leaves))]
pub fn waste_leaves_in_counted_steps()
    ensures { WasteLeavesInCountedSteps }
{}

/// After those steps no more words are in use than the objects have that were reachable at the halt, each counted once, together
/// with the objects made after it.
#[tactic(auto, using(crate::proofs::Bounded::words_law))]
pub fn words_in_use_are_of_the_reachable_and_the_new()
    ensures { WordsInUseAreOfTheReachableAndTheNew }
{}

/// At every halt all pairs that contain those noted, whose car was not forgotten since, have every slot that stands in a later
/// car than its object; and by them a step finds just the slots that a scan of all objects would find.
pub fn no_reference_is_overlooked()
    ensures { NoReferenceIsOverlooked }
{}

/// Data words are below 4,294,967,296, if the values that are put are.
#[tactic(auto, using(crate::proofs::Words::data_words_law))]
pub fn data_words_are_words()
    ensures { DataWordsAreWords }
{}

/// With an exact set all replies follow from the calls alone.
#[tactic(auto, using(crate::proofs::Exact::exact_law))]
pub fn exact_sets_reply_by_the_calls()
    ensures { ExactSetsReplyByTheCalls }
{}

/// The laws of uses for a layout of the code, and for a remembered set of the code that was told what a use tells it: it
/// overlooks nothing, whatever pairs it came with.
pub fn laws_of<L: Layout, R: RememberedSet>()
    ensures uses { LawsOf L.table }
    ensures remembers { (h : History) (before after : R) → Leads R.has R.says before (updates_of L.table h) after → NothingOverlooked L.table (R.has after) (space_of L.table h).trains }
{}

/// The worked examples: scripts and what they play to, byte for byte, and two that hold of every space.
#[tactic(auto, using(crate::proofs::Examples::examples))]
pub fn worked_examples()
    ensures { WorkedExamples }
{}

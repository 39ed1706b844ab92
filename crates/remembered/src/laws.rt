//! What holds of sets over lists of updates.

ghost use Rattle.std.specs.Prelude.{reverse};
ghost use Rattle.remembered.specs.Laws.{Keeps};
ghost use Rattle.remembered.specs.Leads.{IsExact, Leads};
ghost use Rattle.remembered.specs.Updates.{Updates, still_noted};

use crate::exact::ExactSet;
use crate::{RememberedSet, Update};

/// Every set, exact or not, has what is still noted: each pair that it had at first or that was noted in range, but for
/// those whose car was forgotten since.
pub fn overlooks_nothing<R: RememberedSet>()
    ensures { (s t : R) (updates : Updates) → Leads R.has R.says s updates t → Keeps (still_noted (R.has s) updates) (R.has t) }
{}

/// An exact set that began with no pair has the pairs that its updates mean, and no others.
pub fn has_what_is_meant<R: ExactSet>()
    ensures { IsExact R.has R.says R.means }
{}

/// Tells a set a list of updates, the first of them first.
pub fn tell<R: RememberedSet>(set: &mut R, updates: &[Update])
    ensures way { Leads R.has R.says set.old (reverse updates.now) set.new }
    ensures still { Keeps (still_noted (R.has set.old) (reverse updates.now)) (R.has set.new) }
{
    for update in updates {
        match *update {
            Update::Note { car, address } => set.note(car, address),
            Update::Forget { car } => set.forget(car),
        }
    }
}

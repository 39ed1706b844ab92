//! Sets whose pairs follow from what they were told.

ghost use Rattle.remembered.specs.Leads.{IsExact};
ghost use Rattle.remembered.specs.Updates.{Pairs, Updates};

use crate::RememberedSet;

/// A set that always does the same: where it began with no pair, what it was told decides which pairs it has.
pub trait ExactSet: RememberedSet {
    // The pairs that it has after a list of updates, the newest first.
    ghost means: { Updates → Pairs };

    // Whichever way it went, told these updates from no pair on, it has those pairs and no others.
    ghost exact: { IsExact Self.has Self.says means };
}

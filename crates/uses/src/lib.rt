//! Which histories bring a space, that is a memory with a remembered set, to where it is; and how each call goes on from them.
#![tactic(auto)]

ghost use Rattle.uses.specs.Laws.{CallsGoOn, RepliesFollow};

use layout::Layout;
use remembered::RememberedSet;
use remembered::exact::ExactSet;

/// From what a call does to the memory to what it does to a space: with the call each history that brought the space to where
/// it was brings it to where it is.
pub fn calls_go_on<L: Layout, R: RememberedSet>()
    ensures { CallsGoOn L.table L.code R.has R.says }
{}

/// With an exact set that began with no pair all replies follow from the calls alone, the looked counts too.
pub fn replies_follow_from_calls<L: Layout, R: ExactSet>()
    ensures { RepliesFollow L.table R.has R.says R.means }
{}

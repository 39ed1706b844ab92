//! What a memory is at a halt, whatever calls came before: the laws over whole uses, said of its words, headers and roots.
#![tactic(auto)]

ghost use Rattle.halts.specs.HaltLaws.{HaltLaws};

use layout::Layout;

/// At every halt the objects of the memory match entries of the plain graph one to one, and what the roots reach is the same in
/// both; waste is gone after counted steps, and then the words in use are those of what was reachable and of what was made since.
pub fn laws_at_halts<L: Layout>()
    ensures { HaltLaws L.table L.code L.decoded }
{}

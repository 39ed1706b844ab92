//! Where the object that a root holds stands, and where one of its words does.

ghost use Rattle.std.specs.Prelude.{◌≡◌, ◌<◌, IfOk};
ghost use Rattle.memory.specs.Found.{root_word, object_at, AtEachSpace, Finds, ref_count, ref_at, word_count, word_at};

use crate::{Memory, ROOTS};
use calls::Refusal;
use layout::Layout;
use objects::{MEMORY_WORDS, data_address, reference_address};

impl Memory {
    // The word of a root.
    pub(crate) fn root_word(&self, root: u32) -> Result<u32, Refusal>
        ensures { result ≡ root_word self.now.roots root }
    {
        if root < ROOTS {
            Ok(self.roots[root as usize])
        } else {
            Err(Refusal::Root)
        }
    }

    // The address of the object that a root holds.
    pub(crate) fn object(&self, root: u32) -> Result<u32, Refusal>
        ensures inside { IfOk result (λ a. a < 8192) }
        ensures object { result ≡ object_at self.now.roots root }
    {
        let word = self.root_word(root)?;
        if word < MEMORY_WORDS {
            Ok(word)
        } else {
            Err(Refusal::Empty)
        }
    }

    // The address of a reference of the object that a root holds.
    pub(crate) fn reference<L: Layout>(&self, root: u32, slot: u32) -> Result<u32, Refusal>
        ensures inside { IfOk result (λ a. a < 8192) }
        ensures found { AtEachSpace L.table L.code self.now (λ m. Finds m ref_count (ref_at L.table) root slot result) }
    {
        let object = self.object(root)?;
        reference_address::<L>(&self.words, object, slot).ok_or(Refusal::Missing)
    }

    // The address of a data word of the object that a root holds.
    pub(crate) fn data_word<L: Layout>(&self, root: u32, word: u32) -> Result<u32, Refusal>
        ensures inside { IfOk result (λ a. a < 8192) }
        ensures found { AtEachSpace L.table L.code self.now (λ m. Finds m word_count (word_at L.table) root word result) }
    {
        let object = self.object(root)?;
        data_address::<L>(&self.words, object, word).ok_or(Refusal::Missing)
    }
}

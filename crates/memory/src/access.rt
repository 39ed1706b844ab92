//! The calls on what the roots hold.

ghost use Rattle.std.specs.Prelude.{◌≡◌, ℕ, length, OnErr};
ghost use Rattle.calls.specs.declared.call.Access.TheVariants.{Link, Follow, Drop as Dropping, Put, Lift, Get, Words, Same};
ghost use Rattle.calls.specs.declared.call.Call.TheVariants.{Access};
ghost use Rattle.layout.specs.declared.Shape.{Shape};
ghost use Rattle.layout.specs.ShapeTable.{ShapeTable};
ghost use Rattle.memory.specs.Stands.{Continues, ContinuesTelling};
ghost use Rattle.memory.specs.Replies.{done_reply, value_reply, same_reply, words_reply, Writes};
ghost use Rattle.memory.specs.Found.{AtEachSpace};

use crate::Memory;
use crate::noting::note_later;
use calls::Refusal;
use layout::Layout;
use objects::{NOTHING, copy_out};
use remembered::RememberedSet;

impl Memory {
    /// Sets a reference of the object that `root` holds to what `from` holds, perhaps nothing. It is noted if its car is a later
    /// one than that of the object it then holds.
    pub fn link<L: Layout, R: RememberedSet>(
        &mut self,
        set: &mut R,
        root: u32,
        slot: u32,
        from: u32,
    ) -> Result<(), Refusal>
        ensures acts { ContinuesTelling L.table L.code R.has R.says (Access (Link root slot from)) (done_reply result) self.old self.new set.old set.new }
        ensures err { OnErr result (self.new ≡ self.old) }
        ensures untold { OnErr result (set.new ≡ set.old) }
    {
        let target = self.root_word(from)?;
        let address = self.reference::<L>(root, slot)?;
        self.words[address as usize] = target;
        note_later(&self.trains, set, address, target);
        Ok(())
    }

    /// Sets `root` to what a reference of the object that `from` holds, perhaps nothing.
    pub fn follow<L: Layout>(&mut self, root: u32, from: u32, slot: u32) -> Result<(), Refusal>
        ensures acts { Continues L.table L.code (Access (Follow root from slot)) (done_reply result) self.old self.new }
        ensures err { OnErr result (self.new ≡ self.old) }
    {
        self.root_word(root)?;
        let address = self.reference::<L>(from, slot)?;
        self.roots[root as usize] = self.words[address as usize];
        Ok(())
    }

    /// Empties a root.
    pub fn drop(&mut self, root: u32) -> Result<(), Refusal>
        ensures acts { (M : ShapeTable) (code : Shape → ℕ) → Continues M code (Access (Dropping root)) (done_reply result) self.old self.new }
        ensures err { OnErr result (self.new ≡ self.old) }
    {
        self.root_word(root)?;
        self.roots[root as usize] = NOTHING;
        Ok(())
    }

    /// Stores a value in a data word of the object that a root holds.
    pub fn put<L: Layout>(&mut self, root: u32, word: u32, value: u32) -> Result<(), Refusal>
        ensures acts { Continues L.table L.code (Access (Put root word value)) (done_reply result) self.old self.new }
        ensures err { OnErr result (self.new ≡ self.old) }
    {
        let address = self.data_word::<L>(root, word)?;
        self.words[address as usize] = value;
        Ok(())
    }

    /// Adds to a data word of the object that a root holds.
    pub fn lift<L: Layout>(&mut self, root: u32, word: u32, by: i32) -> Result<(), Refusal>
        ensures acts { Continues L.table L.code (Access (Lift root word by)) (done_reply result) self.old self.new }
        ensures err { OnErr result (self.new ≡ self.old) }
    {
        let address = self.data_word::<L>(root, word)? as usize;
        let value = self.words[address]
            .checked_add_signed(by)
            .ok_or(Refusal::Range)?;
        self.words[address] = value;
        Ok(())
    }

    /// A data word of the object that a root holds.
    pub fn get<L: Layout>(&self, root: u32, word: u32) -> Result<u32, Refusal>
        ensures { Continues L.table L.code (Access (Get root word)) (value_reply result) self.now self.now }
    {
        let address = self.data_word::<L>(root, word)?;
        Ok(self.words[address as usize])
    }

    /// Writes the data words of the object that a root holds to the front of the buffer, in order, and answers their number.
    pub fn words<L: Layout>(&self, root: u32, buffer: &mut [u32]) -> Result<u32, Refusal>
        ensures acts { Continues L.table L.code (Access (Words root (length buffer.old))) (words_reply result buffer.new) self.now self.now }
        ensures buffer { AtEachSpace L.table L.code self.now (λ m. Writes (words_reply result buffer.new) buffer.old buffer.new) }
    {
        let object = self.object(root)?;
        copy_out::<L>(&self.words, object, buffer).ok_or(Refusal::Buffer)
    }

    /// Whether two roots hold one and the same object, or neither holds any.
    pub fn same<L: Layout>(&self, root: u32, other: u32) -> Result<bool, Refusal>
        ensures { Continues L.table L.code (Access (Same root other)) (same_reply result) self.now self.now }
    {
        Ok(self.root_word(root)? == self.root_word(other)?)
    }
}

//! Making objects.

ghost use Rattle.std.specs.Prelude.{◌≡◌, OnErr};
ghost use Rattle.calls.specs.declared.call.Call.TheVariants.{Make};
ghost use Rattle.memory.specs.Stands.{Known, Continues};
ghost use Rattle.memory.specs.Replies.{done_reply};

use crate::Memory;
use calls::Refusal;
use layout::{Layout, Shape};
use objects::write_new;

/// How many words may be in use.
pub const CAPACITY: u32 = 3072;

impl Memory {
    /// Places a new object of that shape at the arrival rank, with empty references and zeros for data words, and sets a root to
    /// it.
    pub fn make<L: Layout>(
        &mut self,
        root: u32,
        kind: u32,
        refs: u32,
        words: u32,
    ) -> Result<(), Refusal>
        requires known { Known L.table L.code self.old }
        ensures acts { Continues L.table L.code (Make root kind refs words) (done_reply result) self.old self.new }
        ensures err { OnErr result (self.new ≡ self.old) }
    {
        self.root_word(root)?;
        let header = L::header(Shape { kind, refs, words }).ok_or(Refusal::Shape)?;
        let size = L::size(header);
        if self.used + size > CAPACITY {
            return Err(Refusal::Full);
        }
        let object = self.trains.place(self.trains.arrival(), size);
        write_new::<L>(&mut self.words, object, header);
        self.roots[root as usize] = object;
        self.used += size;
        Ok(())
    }
}

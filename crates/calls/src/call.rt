// One call, with its numbers under their own names.

/// A call on what the roots hold.
#[derive(Clone, Copy, PartialEq, Eq, Debug)]
pub enum Access {
    /// What root `from` holds, into a slot of the object that `root` holds.
    Link { root: u32, slot: u32, from: u32 },
    /// What a slot of the object in root `from` holds, into `root`.
    Follow { root: u32, from: u32, slot: u32 },
    /// Nothing, into a root.
    Drop { root: u32 },
    /// A value, into a data word of the object that a root holds.
    Put { root: u32, word: u32, value: u32 },
    /// Adds to a data word of the object that a root holds.
    Lift { root: u32, word: u32, by: i32 },
    /// Asks for a data word of the object that a root holds.
    Get { root: u32, word: u32 },
    /// Asks for all data words of the object that a root holds, in a buffer of that many words. No script has this call.
    Words { root: u32, room: usize },
    /// Asks whether two roots hold the same.
    Same { root: u32, other: u32 },
}

/// What is asked of a space. Every number is as it was handed over; which ones a space refuses is told by the
/// `Refusal` that answers the call.
#[derive(Clone, Copy, PartialEq, Eq, Debug)]
pub enum Call {
    /// A new object of that kind, with that many references and data words, into a root.
    Make {
        root: u32,
        kind: u32,
        refs: u32,
        words: u32,
    },
    /// A call on what the roots hold.
    Access(Access),
    /// One step of the collector.
    Step,
    /// Asks how much is in use.
    Tally,
}

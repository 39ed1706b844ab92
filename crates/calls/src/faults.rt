// What the reader finds wrong, told layer by layer: a word's fault becomes its line's, and a line's the player's. A
// fault of any other number goes the same way.
ghost use Rattle.std.specs.Prelude.{◌≡◌};
ghost use Rattle.calls.specs.Faults.{line_fault, other_fault, player_fault, fault_number, fault_position};

/// Where a fault is.
#[derive(Clone, Copy, PartialEq, Eq, Debug)]
pub struct Position {
    /// The line's number in its script, from 1.
    pub line: u32,
    /// The place in the line, in bytes from 0.
    pub place: usize,
}

/// A word that writes no number that may stand there, by where it begins.
#[derive(Clone, Copy, PartialEq, Eq, Debug)]
pub struct WordFault {
    pub at: Position,
}

/// A fault of any number, and where it is. The reader tells none of these.
#[derive(Clone, Copy, PartialEq, Eq, Debug)]
pub struct OtherFault {
    /// The number that a line shows for it.
    pub number: u8,
    pub at: Position,
}

/// What is wrong with a line.
#[derive(Clone, Copy, PartialEq, Eq, Debug)]
pub enum LineFault {
    /// The words make no call: the first one names none, or there are too few of them or too many.
    Words(Position),
    /// A word writes no number that may stand there.
    Number(WordFault),
    /// A fault that is told by its number.
    Other(OtherFault),
}

/// What ends a play early, by the part of the player that it comes from.
#[derive(Clone, Copy, PartialEq, Eq, Debug)]
pub enum PlayerFault {
    Reader(LineFault),
}

impl LineFault {
    /// The number that a line shows for the fault.
    pub fn number(self) -> u8
        ensures { result ≡ fault_number self }
    {
        match self {
            LineFault::Words(_) => 9,
            LineFault::Number(_) => 10,
            LineFault::Other(other) => other.number,
        }
    }

    /// Where the fault is: for a missing word, the end of its line.
    pub fn position(self) -> Position
        ensures { result ≡ fault_position self }
    {
        match self {
            LineFault::Words(at) | LineFault::Number(WordFault { at }) => at,
            LineFault::Other(other) => other.at,
        }
    }
}

// The conversions are written out, since their clauses say what a fault keeps on its way up.
impl From<WordFault> for LineFault {
    ghost from_gives = { λ word line. line ≡ line_fault word };

    fn from(fault: WordFault) -> LineFault {
        LineFault::Number(fault)
    }
}

impl From<OtherFault> for LineFault {
    ghost from_gives = { λ other line. line ≡ other_fault other };

    fn from(fault: OtherFault) -> LineFault {
        LineFault::Other(fault)
    }
}

impl From<LineFault> for PlayerFault {
    ghost from_gives = { λ line player. player ≡ player_fault line };

    fn from(fault: LineFault) -> PlayerFault {
        PlayerFault::Reader(fault)
    }
}

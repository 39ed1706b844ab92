// What a call answers, with the bounds that the parts of an output line have.
ghost use Rattle.std.specs.Prelude.{◌≡◌};
ghost use Rattle.calls.specs.Answers.{refusal_number};

/// Why a call was refused; `number` is what a line shows and what C is told.
#[derive(Clone, Copy, PartialEq, Eq, Debug)]
pub enum Refusal {
    /// There is no such root.
    Root,
    /// The root holds no object.
    Empty,
    /// The object has no such slot or data word.
    Missing,
    /// No object has that kind and those numbers.
    Shape,
    /// There is no room for the object.
    Full,
    /// The lifted word would lie outside 0 to 4,294,967,295.
    Range,
    /// The buffer is too short.
    Buffer,
}

/// The kind of a step, by what it freed: nothing, the whole first train, or its first car.
#[derive(Clone, Copy, PartialEq, Eq, Debug)]
pub enum StepKind {
    /// Nothing: there was no train.
    Idle,
    /// The first train, whole.
    Train,
    /// The first car of the first train.
    Car,
}

/// A step's report: its kind, how many objects left the first train and how many went back into it, how many
/// words were copied, how many objects were lost, at how many pairs it looked, and how many cars it freed.
/// A car has at most 64 objects and 128 words, a train at most 1,536 objects and, at a halt, 48 cars.
#[derive(Clone, Copy, PartialEq, Eq, Debug)]
pub struct Report {
    pub kind: StepKind,
    pub out: u8,
    pub back: u8,
    pub copied: u8,
    pub lost: u16,
    pub looked: u32,
    pub cars: u8,
}

/// How many words, cars and trains are in use, and whether a mark stands.
#[derive(Clone, Copy, PartialEq, Eq, Debug)]
pub struct Usage {
    pub words: u32,
    pub cars: u32,
    pub trains: u32,
    pub mark: bool,
}

/// What a call answers.
#[derive(Clone, Copy, PartialEq, Eq, Debug)]
pub enum Answer {
    /// Nothing was done.
    Refused(Refusal),
    /// It was done, and there is nothing else to tell.
    Done,
    /// The data word asked for.
    Value(u32),
    /// So many data words stand at the front of the caller's buffer.
    Words(u32),
    /// Whether both roots hold the same.
    Same(bool),
    Tally(Usage),
    Step(Report),
}

impl Refusal {
    /// The refusal's number, from 1 to 7.
    pub fn number(self) -> u8
        ensures { result ≡ refusal_number self }
    {
        match self {
            Refusal::Root => 1,
            Refusal::Empty => 2,
            Refusal::Missing => 3,
            Refusal::Shape => 4,
            Refusal::Full => 5,
            Refusal::Range => 6,
            Refusal::Buffer => 7,
        }
    }
}

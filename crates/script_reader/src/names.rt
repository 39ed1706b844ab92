// The calls' names, and how many numbers stand behind each.
ghost use Rattle.std.specs.Prelude.{◌≡◌};
ghost use Rattle.std.specs.Option.{ok_or};
ghost use Rattle.script_reader.specs.Names.{called, count_of, unknown_name};

/// What a line asks for, by its first word: `make`, `link` and so on.
#[derive(Clone, Copy, PartialEq, Eq, Debug)]
pub enum Name {
    Make,
    Link,
    Follow,
    Drop,
    Put,
    Lift,
    Get,
    Same,
    Step,
    Tally,
}

/// The word is the name of no call.
#[derive(Clone, Copy, PartialEq, Eq, Debug)]
pub struct UnknownName;

impl<'a> TryFrom<&'a [u8]> for Name {
    type Error = UnknownName;

    ghost try_from_gives = { λ text named. named ≡ ok_or (called text.now) unknown_name };

    #[tactic(auto, using(crate::proofs::LongName::called_follow))]
    fn try_from(text: &'a [u8]) -> Result<Name, UnknownName> {
        match text {
            b"make" => Ok(Name::Make),
            b"link" => Ok(Name::Link),
            b"follow" => Ok(Name::Follow),
            b"drop" => Ok(Name::Drop),
            b"put" => Ok(Name::Put),
            b"lift" => Ok(Name::Lift),
            b"get" => Ok(Name::Get),
            b"same" => Ok(Name::Same),
            b"step" => Ok(Name::Step),
            b"tally" => Ok(Name::Tally),
            _ => Err(UnknownName),
        }
    }
}

impl Name {
    /// How many numbers stand behind the name.
    pub fn numbers(self) -> usize
        ensures { result ≡ count_of self }
    {
        match self {
            Name::Make => 4,
            Name::Link | Name::Follow | Name::Put | Name::Lift => 3,
            Name::Get | Name::Same => 2,
            Name::Drop => 1,
            Name::Step | Name::Tally => 0,
        }
    }
}

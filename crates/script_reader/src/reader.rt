// Reads a line as a call. All that is wrong with the words of a line is told before anything wrong with its numbers.
ghost use Rattle.std.specs.Prelude.{◌≡◌, ◌≤◌, ◌↔◌, Ok};
ghost use Rattle.calls.specs.Faults.{position_at};
ghost use Rattle.script_reader.specs.Spelling.{Spells};
ghost use Rattle.script_reader.specs.Words.{piece};
ghost use Rattle.script_reader.specs.Reader.{word, number_at, numbers_of, name_of, counted, line_of, player_of};

use crate::names::Name;
use crate::numbers::Numeral;
use crate::words::{Token, Word, nth_word};
use calls::call::{Access, Call};
use calls::faults::{LineFault, PlayerFault, Position, WordFault};

/// A line, and its number in its script.
#[derive(Clone, Copy)]
struct NumberedLine<'a> {
    text: &'a [u8],
    line_number: u32,
}

impl<'a> NumberedLine<'a> {
    fn at(self, place: usize) -> Position
        ensures { result ≡ position_at self.entry.line_number place }
    {
        let line = self.line_number;
        Position { line, place }
    }

    // Word `index`; one that is missing stands, empty, at the line's end.
    fn word(self, index: usize) -> Word<'a>
        ensures { piece result ≡ word self.entry.text.now index }
    {
        let missing = Word {
            text: &[],
            place: self.text.len(),
        };
        nth_word(self.text, index).map_or(missing, Token::word)
    }

    fn name(self) -> Result<Name, LineFault>
        ensures { result ≡ name_of self.entry.line_number self.entry.text.now }
    {
        // `or`, since with `map_err` the proof stays open.
        Name::try_from(self.word(0).text).or(Err(LineFault::Words(self.at(0))))
    }

    // Whether just `count` words stand behind the first.
    fn check_count(self, count: usize) -> Result<(), LineFault>
        requires { count ≤ 4 }
        ensures { result ≡ counted self.entry.line_number self.entry.text.now count }
    {
        nth_word(self.text, count).ok_or(LineFault::Words(self.at(self.text.len())))?;
        // The word that is there makes the fault, so `ok_or` does not fit.
        match nth_word(self.text, count + 1) {
            None => Ok(()),
            Some(surplus) => Err(LineFault::Words(self.at(surplus.place()))),
        }
    }

    // Word `index` as a number.
    fn number_at<T: Numeral>(self, index: usize) -> Result<T, WordFault>
        ensures { result ≡ number_at T.written self.entry.line_number self.entry.text.now index }
    {
        let word = self.word(index);
        let at = self.at(word.place);
        T::read(word.text).ok_or(WordFault { at })
    }

    // The call with its numbers.
    fn call(self, name: Name) -> Result<Call, WordFault>
        ensures { result ≡ numbers_of name self.entry.line_number self.entry.text.now }
    {
        Ok(match name {
            Name::Make => Call::Make {
                root: self.number_at(1)?,
                kind: self.number_at(2)?,
                refs: self.number_at(3)?,
                words: self.number_at(4)?,
            },
            Name::Link => Call::Access(Access::Link {
                root: self.number_at(1)?,
                slot: self.number_at(2)?,
                from: self.number_at(3)?,
            }),
            Name::Follow => Call::Access(Access::Follow {
                root: self.number_at(1)?,
                from: self.number_at(2)?,
                slot: self.number_at(3)?,
            }),
            Name::Drop => Call::Access(Access::Drop {
                root: self.number_at(1)?,
            }),
            Name::Put => Call::Access(Access::Put {
                root: self.number_at(1)?,
                word: self.number_at(2)?,
                value: self.number_at(3)?,
            }),
            Name::Lift => Call::Access(Access::Lift {
                root: self.number_at(1)?,
                word: self.number_at(2)?,
                by: self.number_at(3)?,
            }),
            Name::Get => Call::Access(Access::Get {
                root: self.number_at(1)?,
                word: self.number_at(2)?,
            }),
            Name::Same => Call::Access(Access::Same {
                root: self.number_at(1)?,
                other: self.number_at(2)?,
            }),
            Name::Step => Call::Step,
            Name::Tally => Call::Tally,
        })
    }
}

/// The call that a line asks for; `number` is the line's number in its script, from 1.
pub fn read_line(line: &[u8], number: u32) -> Result<Call, LineFault>
    ensures { result ≡ line_of number line.now }
{
    let line = NumberedLine {
        text: line,
        line_number: number,
    };
    let name = line.name()?;
    line.check_count(name.numbers())?;
    Ok(line.call(name)?)
}

/// What the player is told: the call, or the reader's fault. A line is read as the call that it spells, and as no other.
pub fn read(line: &[u8], number: u32) -> Result<Call, PlayerFault>
    ensures told { result ≡ player_of number line.now }
    ensures spelling { (call : Call) → (result ≡ Ok call) ↔ Spells line.now call }
{
    Ok(read_line(line, number)?)
}

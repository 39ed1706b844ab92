// The words of a line. A line is cut at every single space, so a word may be empty.
ghost use Rattle.std.specs.Prelude.{◌≡◌, ◌≤◌, List, IfSome, ◌==◌, length, slice_get};
ghost use Rattle.std.specs.Option.{option_map, option_map_or};
ghost use Rattle.std.specs.Iterator.{YieldsFirstBy, item_count};
ghost use Rattle.script_reader.specs.Words.{Word as WordOf, words, words_left, piece, seen, is_name};

use crate::pieces::cut_at;
use std::marker::Model;

const SPACE: u8 = b' ';

/// A piece of a line between two spaces.
#[derive(Clone, Copy, PartialEq, Eq, Debug)]
pub struct Word<'a> {
    /// Its bytes; there may be none.
    pub text: &'a [u8],
    /// Where it begins in its line, in bytes from 0.
    pub place: usize,
}

/// A word as the reader hands it on: the first of a line is a call's name, the others are its numbers. Two variants of the
/// same, so that a caller can match on what the word is.
#[derive(Clone, Copy, PartialEq, Eq, Debug)]
pub enum Token<'a> {
    Name(Word<'a>),
    Number(Word<'a>),
}

impl<'a> Token<'a> {
    /// The word, whichever it is.
    pub fn word(self) -> Word<'a>
        ensures { piece result ≡ seen self.entry }
    {
        match self {
            Token::Name(word) | Token::Number(word) => word,
        }
    }

    /// The word's piece of the line.
    pub fn text(self) -> &'a [u8]
        ensures { result.now ≡ (seen self.entry).text }
    {
        self.word().text
    }

    /// Where the word begins in its line, in bytes from 0.
    pub fn place(self) -> usize
        ensures { result ≡ (seen self.entry).place }
    {
        self.word().place
    }
}

// The words of a line that are still to come.
#[derive(Drop)]
struct Words<'a> {
    line: &'a [u8],
    // what is left of the line at its end, or none behind the last word
    rest: Option<&'a [u8]>,
}

impl<'a> Model for Words<'a> {
    ghost Value = { List WordOf };

    ghost view = { λ s. words_left s.line.now s.rest };

    ghost invariant = { λ s. option_map_or (λ r. length r.now) s.rest 0 ≤ length s.line.now };
}

impl<'a> Words<'a> {
    fn new(line: &'a [u8]) -> Words<'a>
        ensures { result ≡ words line.now }
    {
        Words {
            line,
            rest: Some(line),
        }
    }
}

impl<'a> Iterator for Words<'a> {
    type Item = Word<'a>;

    ghost next_gives = { YieldsFirstBy piece (λ s. s) };

    ghost remaining = { item_count (λ s. s) };

    fn next(&mut self) -> Option<Word<'a>> {
        let rest = self.rest?;
        let place = self.line.len() - rest.len();
        let (text, behind) = cut_at(rest, SPACE);
        self.rest = behind;
        Some(Word { text, place })
    }
}

fn word_at(line: &[u8], index: usize) -> Option<Word<'_>>
    ensures { option_map piece result ≡ slice_get (words line.now) index }
{
    Words::new(line).nth(index)
}

/// Word `index` of a line, counted from 0; none if the line has no such word.
pub fn nth_word<'a>(line: &'a [u8], index: usize) -> Option<Token<'a>>
    ensures word { option_map seen result ≡ slice_get (words line.now) index }
    ensures variant { IfSome result (λ t. is_name t ≡ (index == 0)) }
{
    let word = word_at(line, index)?;
    if index == 0 {
        Some(Token::Name(word))
    } else {
        Some(Token::Number(word))
    }
}

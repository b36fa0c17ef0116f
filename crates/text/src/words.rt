//! The words of a line, and what is said of one that was not expected.

ghost use Rattle.std.specs.Prelude.{◌≡◌, ℕ, ◌<◌, ◌==◌, List, length, Some, None, IfOk, IfErr};
ghost use Rattle.std.specs.Borrow.{Bor};
ghost use Rattle.std.specs.Iterator.{at_most};
ghost use Rattle.std.specs.List.{before_first, position};
ghost use Rattle.std.specs.Str.{bytes_eq};
ghost use Rattle.std.specs.Str.Iter.{split_whitespace_rest, split_whitespace_steps};

use crate::names::Kinds;
use std::str::{FromStr, SplitWhitespace};
use thiserror::Error;

/// What a line should have had next.
#[derive(Clone, Copy, Debug, PartialEq, Eq, Error)]
pub enum Expected {
    /// The first word of a record.
    #[error("a record, as type, identifier, path, scope, depend, declare, reassign, read, value, add, open, close, merge, list, shape or raw")]
    Record,
    #[error("the word {0}")]
    Word(&'static str),
    #[error("the word {0} or the end of the line")]
    WordOrEnd(&'static str),
    #[error("the end of the line")]
    End,
    /// A number up to this one.
    #[error("a number from 0 to {0}")]
    Number(u32),
    /// The name of one of these kinds.
    #[error("{0}")]
    Kind(Kinds),
    #[error("the word read, the word reads or the end of the line")]
    Reads,
    #[error("32 hexadecimal digits")]
    Hex,
}

/// What is wrong with a line.
#[derive(Clone, Copy, Debug, PartialEq, Eq, Error)]
pub enum Complaint<'a> {
    #[error("{found} is not understood, expected {expected}")]
    Unexpected { found: &'a str, expected: Expected },
    #[error("the line ends too early, expected {expected}")]
    TooShort { expected: Expected },
}

/// The words of a line that are still to be read.
#[derive(Drop)]
pub struct Words<'a> {
    rest: SplitWhitespace<'a>,
}

impl<'a> From<&'a str> for Words<'a> {
    // The words of a line, without its comment: what stands before the first `#`.
    ghost from_gives = { λ line words. split_whitespace_rest words.rest ≡ before_first (λ byte. byte == 35) line.now };

    fn from(line: &'a str) -> Words<'a> {
        let text = line.split_once('#').map_or(line, |(text, _)| text);
        Words {
            rest: text.split_whitespace(),
        }
    }
}

impl<'a> Iterator for Words<'a> {
    type Item = &'a str;

    ghost next_gives = { λ before word after. split_whitespace_steps before.rest word after.rest };

    ghost remaining = { λ words. at_most (length (split_whitespace_rest words.rest)) };

    fn next(&mut self) -> Option<&'a str> {
        self.rest.next()
    }
}

/// A word as a value of a type.
fn parsed<'a, T: FromStr>(found: &'a str, expected: Expected) -> Result<T, Complaint<'a>>
where
    T::Err: Drop,
{
    found
        .parse()
        .map_err(|_| Complaint::Unexpected { found, expected })
}

impl<'a> Words<'a> {
    /// The next word, which has to be there.
    pub fn some(&mut self, expected: Expected) -> Result<&'a str, Complaint<'a>>
        ensures found { IfOk result (λ word. split_whitespace_steps self.old.rest (Some word) self.new.rest) }
        ensures ended { IfErr result (λ complaint. (complaint ≡ Complaint.TooShort expected) × split_whitespace_steps self.old.rest None self.new.rest) }
    {
        self.next().ok_or(Complaint::TooShort { expected })
    }

    /// This word.
    pub fn word(&mut self, word: &'static str) -> Result<(), Complaint<'a>> {
        let expected = Expected::Word(word);
        let found = self.some(expected)?;
        if found == word {
            Ok(())
        } else {
            Err(Complaint::Unexpected { found, expected })
        }
    }

    /// Whether this word comes next; if not, the line ends here.
    pub fn goes_on(&mut self, word: &'static str) -> Result<bool, Complaint<'a>> {
        match self.next() {
            None => Ok(false),
            Some(found) if found == word => Ok(true),
            Some(found) => Err(Complaint::Unexpected {
                found,
                expected: Expected::WordOrEnd(word),
            }),
        }
    }

    /// The end of the line.
    pub fn end(&mut self) -> Result<(), Complaint<'a>> {
        match self.next() {
            None => Ok(()),
            Some(found) => Err(Complaint::Unexpected {
                found,
                expected: Expected::End,
            }),
        }
    }

    /// A number of four bytes.
    pub fn number(&mut self) -> Result<u32, Complaint<'a>> {
        let expected = Expected::Number(u32::MAX);
        parsed(self.some(expected)?, expected)
    }

    /// A number of four bytes, or none where the line ends.
    pub fn last_number(&mut self) -> Result<Option<u32>, Complaint<'a>> {
        self.next()
            .map(|found| parsed(found, Expected::Number(u32::MAX)))
            .transpose()
    }

    /// A number of two bytes. It is `number` but for its type and the greatest of it: generic over both, it would ask each caller for them.
    pub fn short_number(&mut self) -> Result<u16, Complaint<'a>> {
        let expected = Expected::Number(u16::MAX.into());
        parsed(self.some(expected)?, expected)
    }

    /// The name of one of these kinds, as its number.
    pub fn kind(&mut self, kinds: Kinds) -> Result<usize, Complaint<'a>>
        ensures below { IfOk result (λ number. number < length kinds.names.now) }
        ensures named { IfOk result (λ number. (word : Bor (List ℕ)) × split_whitespace_steps self.old.rest (Some word) self.new.rest × (position (λ known. bytes_eq known.now word.now) kinds.names.now ≡ Some number)) }
    {
        let expected = Expected::Kind(kinds);
        let found = self.some(expected)?;
        kinds
            .number(found)
            .ok_or(Complaint::Unexpected { found, expected })
    }
}

//! What a call answers.

ghost use Rattle.std.specs.Prelude.{◌≡◌, ◌==◌, Some};
ghost use Rattle.screen.specs.Lines.{plain, line_text};
ghost use Rattle.screen.specs.Numbers.{number_of};

use crate::rows::NONE;
use std::fmt;
use thiserror::Error;

/// What an accepted record answers. It has the shape of an `Option`, but the words say what came of the record.
#[derive(Clone, Copy, Debug, PartialEq, Eq)]
pub enum Answer {
    /// The record was taken.
    Accepted,
    /// The tree was listed, in so many lines.
    Listed(u32),
}

/// Why a record was not taken. A host and a technician know each reason by its number.
#[derive(Clone, Copy, Debug, PartialEq, Eq, Error)]
pub enum Refusal {
    #[error("a table is shorter than its limit")]
    Short = 5,
    #[error("the tables are not sound")]
    Unsound = 6,
    #[error("the tag is unknown, or a field breaks its list")]
    Field = 7,
    #[error("a named row is not put, or is of another kind")]
    Row = 8,
    #[error("a named value has a user, or a Scope is not unused")]
    Used = 9,
    #[error("a value's level would pass 64")]
    Deep = 10,
    #[error("the table is at its limit")]
    Full = 11,
    #[error("the innermost open node cannot hold this child, or Close finds only the body")]
    Place = 12,
    #[error("Open finds 64 nodes open")]
    Open = 13,
}

impl From<Refusal> for u8 {
    ghost from_gives = { λ refusal n. n ≡ number_of refusal };

    /// The number of a refusal.
    fn from(refusal: Refusal) -> u8 {
        refusal as u8
    }
}

/// A line of the list: a node with its level from 1 and its letter; for S also its Scope and that Scope's end, else none.
/// Its layout is what a host lends, so that it keeps plain numbers.
#[derive(Clone, Copy, Debug, Default, PartialEq, Eq)]
pub struct Line {
    pub level: u32,
    pub node: u32,
    pub scope: u32,
    pub end: u32,
    pub letter: u8,
}

impl Line {
    /// A line with no Scope.
    pub fn plain(level: u32, node: u32, letter: u8) -> Line
        ensures { result ≡ plain level node letter }
    {
        Line {
            level,
            node,
            scope: NONE,
            end: NONE,
            letter,
        }
    }

    /// Whether it is a Scope's.
    fn is_scope(&self) -> bool
        ensures { result ≡ self.now.letter == 83 }
    {
        self.letter == b'S'
    }
}

impl fmt::Display for Line {
    ghost output = { λ line. Some (line_text line) };

    /// Its level, letter and node, and for a Scope also its row and its end.
    fn fmt<W: fmt::Write>(&self, f: &mut fmt::Formatter<W>) -> fmt::Result {
        let letter = char::from(self.letter);
        write!(f, "{} {letter} {}", self.level, self.node)?;
        if self.is_scope() {
            write!(f, " {} {}", self.scope, self.end)?;
        }
        Ok(())
    }
}

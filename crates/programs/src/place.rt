//! Where a record stands.

ghost use Rattle.std.specs.Prelude.{Some};
ghost use Rattle.programs.specs.Text.{place_text};

use std::fmt;

/// A record's place: of its block among the blocks, and of the record in its block, both from 0.
#[derive(Clone, Copy, Debug, PartialEq, Eq)]
pub struct Place {
    pub block: u64,
    pub record: u64,
}

impl fmt::Display for Place {
    ghost output = { λ place. Some (place_text place) };

    fn fmt<W: fmt::Write>(&self, f: &mut fmt::Formatter<W>) -> fmt::Result {
        write!(f, "{} {}", self.block, self.record)
    }
}

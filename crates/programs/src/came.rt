//! What came of a record, as text.

use crate::place::Place;
use screen::{Answer, Line, Refusal};
use std::fmt;

/// What came of the record at a place. The lines are those of the work tables, of which a list filled the first.
#[derive(Clone, Copy, Debug, PartialEq, Eq)]
pub struct Came<'a> {
    pub answer: Result<Answer, Refusal>,
    pub lines: &'a [Line],
    pub place: Place,
}

impl fmt::Display for Came<'_> {
    fn fmt<W: fmt::Write>(&self, f: &mut fmt::Formatter<W>) -> fmt::Result {
        match self.answer {
            Ok(Answer::Accepted) => Ok(()),
            Ok(Answer::Listed(n)) => write_lines(self.lines, n, f),
            Err(refusal) => writeln!(f, "refused {} {}", u8::from(refusal), self.place),
        }
    }
}

/// The first n lines of a list.
fn write_lines<W: fmt::Write>(lines: &[Line], n: u32, f: &mut fmt::Formatter<W>) -> fmt::Result {
    for line in lines.iter().take(n as usize) {
        writeln!(f, "{line}")?;
    }
    Ok(())
}

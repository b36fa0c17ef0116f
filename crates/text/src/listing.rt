//! A block of a file as the lines of text that are shown for it.

use crate::show::Line;
use block::RECORD;
use encode::Page;
use std::fmt;

/// The lines of a block: a comment, and its records where it is good. It is only printed, and nothing compares two.
#[derive(Clone, Copy)]
pub struct Listing<'a>(pub &'a Page);

impl fmt::Display for Listing<'_> {
    fn fmt<W: fmt::Write>(&self, f: &mut fmt::Formatter<W>) -> fmt::Result {
        match self.0 {
            Page::Good { place, records } => show_records(*place, records.as_slice(), f),
            Page::Bad { place, fault } => writeln!(f, "# block {place} is not good: {fault}"),
            Page::End => Ok(()),
        }
    }
}

/// A comment with the block's number and how many records it has, and a line for each of them.
fn show_records<W: fmt::Write>(
    place: u64,
    records: &[[u8; RECORD]],
    f: &mut fmt::Formatter<W>,
) -> fmt::Result {
    let count = records.len();
    let noun = if count == 1 { "record" } else { "records" };
    writeln!(f, "# block {place}, {count} {noun}")?;
    for record in records {
        writeln!(f, "{}", Line(*record))?;
    }
    Ok(())
}

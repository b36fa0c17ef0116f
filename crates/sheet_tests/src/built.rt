//! A small screen, and what a record is told of it.

use block::Record;
use screen::{NONE, Refusal};
use sheet::{Sheet, Table, Work};
use std::test::Fail;

/// A record's sixteen bytes.
fn record(tag: u8, p: u8, r: u32, s: u32, t: u32) -> [u8; 16] {
    let q = 0;
    Record { tag, p, q, r, s, t }.into()
}

/// Two Scopes side by side, each with a dependency and a declaration. The first holds an instruction,
/// whose value 1 has the child 0. Only the body is open.
fn screen() -> [[u8; 16]; 15] {
    [
        record(1, 0, 0, 0, 0),
        record(2, 0, 0, 0, 0),
        record(4, 0, 1, 5, 0),
        record(5, 0, 0, 0, 0),
        record(6, 0, 0, 0, 0),
        record(4, 0, 6, 9, 0),
        record(5, 0, 0, 0, 0),
        record(6, 0, 0, 0, 0),
        record(9, 6, 0, NONE, 0),
        record(9, 15, 0, 0, 0),
        record(11, 2, 0, 0, 0),
        record(10, 0, 3, 1, NONE),
        record(12, 0, 0, 0, 0),
        record(11, 2, 1, 0, 0),
        record(12, 0, 0, 0, 0),
    ]
}

/// Starts a sheet and builds the small screen on it.
pub fn build(sheet: &mut Sheet<'_>, work: &mut Work<'_>) -> Result<(), Fail> {
    sheet.start(work)?;
    for record in screen() {
        sheet.take(work, record)?;
    }
    Ok(())
}

/// What a Close is refused with, none where it is accepted: a case expects no more. On the small screen that is `Place`, since only the body is open.
pub fn told(sheet: &mut Sheet<'_>, work: &mut Work<'_>) -> Option<Refusal> {
    sheet.take(work, record(12, 0, 0, 0, 0)).err()
}

/// A row of a table.
pub fn row<'a, T>(table: &'a mut Table<'_, T>, n: usize) -> Result<&'a mut T, Fail> {
    table
        .rows
        .get_mut(n)
        .ok_or_else(|| Fail::new("the table has no such row"))
}

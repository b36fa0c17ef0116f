//! A table: rows in lent memory, how many of them are put, and how many there may be.

ghost use Rattle.std.specs.Prelude.{◌≡◌, ℕ, ◌+◌, ◌<◌, ◌≤◌, length, slice_set, Decides};
ghost use Rattle.screen.specs.Refused.{full};
ghost use Rattle.sheet.specs.Tables.{CountWithin, items, stored};
ghost use Rattle.sheet.specs.Written.{emptied};

use crate::rows::{DeclarationRow, NodeRow, ScopeRow};
use screen::{DependencyRow, IdentifierRow, PathRow, ReadRow, ShapeRow, TypeRow, ValueRow};

/// A row that a table may hold only so many of.
pub trait Limited: Copy {
    /// The most rows of its table.
    const LIMIT: u32;

    // the same number, for clauses
    ghost LIMIT: { ℕ };
}

impl Limited for TypeRow {
    const LIMIT: u32 = 256;

    ghost LIMIT = { 256 };
}

impl Limited for IdentifierRow {
    const LIMIT: u32 = 1024;

    ghost LIMIT = { 1024 };
}

impl Limited for PathRow {
    const LIMIT: u32 = 1024;

    ghost LIMIT = { 1024 };
}

impl Limited for ScopeRow {
    const LIMIT: u32 = 256;

    ghost LIMIT = { 256 };
}

impl Limited for DependencyRow {
    const LIMIT: u32 = 1024;

    ghost LIMIT = { 1024 };
}

impl Limited for DeclarationRow {
    const LIMIT: u32 = 1024;

    ghost LIMIT = { 1024 };
}

impl Limited for ReadRow {
    const LIMIT: u32 = 1024;

    ghost LIMIT = { 1024 };
}

impl Limited for ValueRow {
    const LIMIT: u32 = 1024;

    ghost LIMIT = { 1024 };
}

impl Limited for ShapeRow {
    const LIMIT: u32 = 16;

    ghost LIMIT = { 16 };
}

impl Limited for NodeRow {
    const LIMIT: u32 = 1024;

    ghost LIMIT = { 1024 };
}

/// Rows in lent memory; the first `count` are put. The memory is a host's, so that it is a slice with a count, and may hold anything.
#[derive(Drop)]
pub struct Table<'a, T> {
    pub rows: &'a mut [T],
    pub count: u32,
}

impl<'a, T> Table<'a, T> {
    /// A table over lent rows, of which none is put.
    pub fn over(rows: &'a mut [T]) -> Table<'a, T>
        ensures { result ≡ record { rows = rows.entry; count = 0 } }
    {
        Table { rows, count: 0 }
    }
}

impl<'a, T: Limited> Table<'a, T> {
    /// The rows that are put.
    pub(crate) fn put(&self) -> &[T]
        requires { self.now.count ≤ length self.now.rows.now }
        ensures { result.now ≡ items (stored self.now) }
    {
        let count = self.count as usize;
        let rows = &*self.rows;
        &rows[0..count]
    }

    /// Whether as many rows are put as may be.
    pub(crate) fn is_full(&self) -> bool
        requires { CountWithin (stored self.now) }
        ensures { result ≡ full T.LIMIT (items (stored self.now)) }
    {
        T::LIMIT as usize <= self.put().len()
    }

    /// Whether no more rows are counted than may be.
    pub(crate) fn is_fitting(&self) -> bool
        ensures { Decides result (self.now.count ≤ T.LIMIT) }
    {
        self.count <= T::LIMIT
    }

    /// Whether the lent memory has all the rows that there may be.
    pub(crate) fn is_long(&self) -> bool
        ensures { Decides result (T.LIMIT ≤ length self.now.rows.now) }
    {
        T::LIMIT as usize <= self.rows.len()
    }

    /// Counts no row.
    pub(crate) fn clear(&mut self)
        ensures { stored self.new ≡ emptied (stored self.old) }
    {
        self.count = 0;
    }

    /// Puts one more row.
    pub(crate) fn push(&mut self, row: T)
        requires room { self.old.count < length self.old.rows.now }
        requires few { self.old.count < 1024 }
        ensures rows { self.new.rows.now ≡ slice_set self.old.rows.now self.old.count row }
        ensures count { self.new.count ≡ self.old.count + 1 }
    {
        self.rows[self.count as usize] = row;
        self.count += 1;
    }
}

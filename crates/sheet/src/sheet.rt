//! The memory that a host lends.

use crate::rows::{DeclarationRow, NodeRow, ScopeRow};
use crate::table::Table;
use screen::{DependencyRow, IdentifierRow, Line, PathRow, ReadRow, ShapeRow, TypeRow, ValueRow};

/// A sheet: its tables, and the innermost open node, a plain number as the rows' links are, since a host may hand over any.
/// Each field is the host's to write, so that no invariant can hold of it: what is known of the tables (`Within`, `Sound`, few rows) is asked
/// for where it is used.
#[derive(Drop)]
pub struct Sheet<'a> {
    pub types: Table<'a, TypeRow>,
    pub identifiers: Table<'a, IdentifierRow>,
    pub paths: Table<'a, PathRow>,
    pub scopes: Table<'a, ScopeRow>,
    pub dependencies: Table<'a, DependencyRow>,
    pub declarations: Table<'a, DeclarationRow>,
    pub reads: Table<'a, ReadRow>,
    pub values: Table<'a, ValueRow>,
    pub shapes: Table<'a, ShapeRow>,
    pub nodes: Table<'a, NodeRow>,
    pub innermost: u32,
}

/// What only a call needs: the lines of a list, and what a Merge works with, the last use and the source of each declaration (the number
/// and one more, 0 for none: lent rows are plain numbers), which declarations are targets, and a list of dependencies.
#[derive(Drop)]
pub struct Work<'a> {
    pub lines: &'a mut [Line],
    pub uses: &'a mut [u32],
    pub sources: &'a mut [u32],
    pub targets: &'a mut [u8],
    pub scratch: &'a mut [DependencyRow],
}

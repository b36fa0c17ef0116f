//! What a dependency row stands for: a declaration and a path. A row of a host may name anything, so each answer is total.

ghost use Rattle.std.specs.Prelude.{◌≡◌};
ghost use Rattle.screen.specs.Rules.{declaration_of, path_at};

use screen::{DependencyRow, IdentifierId, IdentifierRow, PathRow};

/// What dependency rows name: the identifiers and the path entries of one sheet.
#[derive(Clone, Copy, Debug, PartialEq, Eq)]
pub struct Entries<'a> {
    pub identifiers: &'a [IdentifierRow],
    pub paths: &'a [PathRow],
}

impl<'a> Entries<'a> {
    /// The declaration of an identifier. One that is not put reads as a row of zeros, as the definitions have it: 0 is a declaration like any other then, and no sign of a failure.
    pub fn declaration_of(self, k: IdentifierId) -> u32
        ensures { result ≡ declaration_of self.entry.identifiers.now k }
    {
        self.identifiers
            .get(k.index())
            .map_or(0, |row| row.declaration)
    }

    /// The part of the path table that a dependency names, as far as it is put.
    #[tactic(auto, using(crate::proofs::Parts::rest_read, crate::proofs::Parts::first_read))]
    pub fn path_of(self, row: &DependencyRow) -> &'a [PathRow]
        ensures { result.now ≡ path_at self.entry.paths.now row.now.first row.now.length }
    {
        let rest = self.paths.get(row.first as usize..).unwrap_or(&[]);
        rest.get(..row.length as usize).unwrap_or(rest)
    }
}

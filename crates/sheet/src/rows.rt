//! The rows that are linked to each other by number. None is 4,294,967,295.
//! Their layout is what a host lends, and it may hand over any bits, so that links, a status and a flag stay plain numbers.

ghost use Rattle.std.specs.Prelude.{◌≡◌};
ghost use Rattle.screen.specs.Records.{declaration_record};
ghost use Rattle.sheet.specs.Appended.{fresh};
ghost use Rattle.sheet.specs.Written.{new_declaration, new_scope, reassigning, standing};

use block::Record;
use screen::{IdentifierId, NONE, Row, Status};

/// The number of a Scope that stands.
const STANDING: u8 = Status::Standing as u8;

/// A Scope: its range, where its dependencies begin, its first declaration, the first Scope merged into it,
/// the next Scope in the merged list that it is in, its status (0 unused, 1 standing, 2 joined, 3 flattened) and 1 where it reassigns.
#[derive(Clone, Copy, Debug, Default, PartialEq, Eq)]
pub struct ScopeRow {
    pub start: u32,
    pub end: u32,
    pub begin: u32,
    pub first: u32,
    pub merged: u32,
    pub next: u32,
    pub status: u8,
    pub reassigns: u8,
}

impl ScopeRow {
    /// A new Scope: unused and with no list.
    pub(crate) fn new(start: u32, end: u32, begin: u32) -> ScopeRow
        ensures { result ≡ new_scope start end begin }
    {
        ScopeRow {
            start,
            end,
            begin,
            first: NONE,
            merged: NONE,
            next: NONE,
            ..ScopeRow::default()
        }
    }

    /// The same Scope, which stands now.
    pub(crate) fn standing(self) -> ScopeRow
        ensures { result ≡ standing self }
    {
        ScopeRow {
            status: STANDING,
            ..self
        }
    }

    /// The same Scope, which reassigns now.
    pub(crate) fn reassigning(self) -> ScopeRow
        ensures { result ≡ reassigning self }
    {
        ScopeRow {
            reassigns: u8::from(true),
            ..self
        }
    }
}

/// A declaration: its key and what it declares, both identifiers, and the next one of its Scope.
#[derive(Clone, Copy, Debug, Default, PartialEq, Eq)]
pub struct DeclarationRow {
    pub key: u32,
    pub declared: u32,
    pub next: u32,
}

impl DeclarationRow {
    /// A new declaration, the last of its Scope.
    pub(crate) fn new(key: IdentifierId, declared: IdentifierId) -> DeclarationRow
        ensures { result ≡ new_declaration key declared }
    {
        DeclarationRow {
            key: u32::from(key),
            declared: u32::from(declared),
            next: NONE,
        }
    }
}

/// A node: the record that made it (the body's is all zeros), its parent, its first and its last child, and its next sibling.
#[derive(Clone, Copy, Debug, Default, PartialEq, Eq)]
pub struct NodeRow {
    pub made: Record,
    pub parent: u32,
    pub first: u32,
    pub last: u32,
    pub next: u32,
}

impl NodeRow {
    /// A new node, with no child and no sibling.
    pub(crate) fn new(made: Record, parent: u32) -> NodeRow
        ensures { result ≡ fresh made parent }
    {
        NodeRow {
            made,
            parent,
            first: NONE,
            last: NONE,
            next: NONE,
        }
    }
}

impl Row for DeclarationRow {
    ghost made = { λ d. declaration_record d.key d.declared };

    fn record(&self) -> Record {
        Record {
            tag: 6,
            r: self.key,
            s: self.declared,
            ..Record::default()
        }
    }
}

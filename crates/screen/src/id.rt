//! The numbers of rows, each with the table that it is a row of.

ghost use Rattle.std.specs.Prelude.{◌≡◌, ℕ};

use std::marker::{Model, PhantomData};

/// The table of types.
#[derive(Clone, Copy, Debug, PartialEq, Eq)]
pub struct TypeTable;

/// The table of identifiers.
#[derive(Clone, Copy, Debug, PartialEq, Eq)]
pub struct IdentifierTable;

/// The table of Scopes.
#[derive(Clone, Copy, Debug, PartialEq, Eq)]
pub struct ScopeTable;

/// The table of reads.
#[derive(Clone, Copy, Debug, PartialEq, Eq)]
pub struct ReadTable;

/// The table of values.
#[derive(Clone, Copy, Debug, PartialEq, Eq)]
pub struct ValueTable;

/// The table of nodes.
#[derive(Clone, Copy, Debug, PartialEq, Eq)]
pub struct NodeTable;

/// The number of a row of the table T. To clauses it is that number.
#[derive(Clone, Copy, Debug, PartialEq, Eq)]
pub struct Id<T> {
    number: u32,
    table: PhantomData<T>,
}

pub type TypeId = Id<TypeTable>;

pub type IdentifierId = Id<IdentifierTable>;

pub type ScopeId = Id<ScopeTable>;

pub type ReadId = Id<ReadTable>;

pub type ValueId = Id<ValueTable>;

pub type NodeId = Id<NodeTable>;

impl<T> Model for Id<T> {
    ghost Value = { ℕ };

    ghost view = { λ id. id.number };

    ghost inverse = { λ n. record { number = n; table = record {} } };
}

impl<T> Id<T> {
    /// The row's place in its table.
    pub fn index(self) -> usize
        ensures { result ≡ self }
    {
        self.number as usize
    }
}

impl<T> From<u32> for Id<T> {
    ghost from_gives = { λ n id. id ≡ n };

    /// The row of this number.
    fn from(number: u32) -> Id<T> {
        Id {
            number,
            table: PhantomData,
        }
    }
}

impl<T> From<Id<T>> for u32 {
    ghost from_gives = { λ row n. n ≡ row };

    /// The number that a field or a lent row keeps.
    fn from(row: Id<T>) -> u32 {
        row.number
    }
}

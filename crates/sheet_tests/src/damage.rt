//! What is written over a field of the tables.

use crate::built::row;
use sheet::Sheet;
use std::test::Fail;

/// A field that is written: of which row, and with what.
#[derive(Clone, Copy, Debug, PartialEq, Eq)]
pub enum Damage {
    /// A count.
    Types(u32),
    Nodes(u32),
    Innermost(u32),
    /// The kind of a type.
    Kind(usize, u8),
    /// The first child of a value.
    Child(usize, u32),
    /// The value of a node's record.
    Value(usize, u32),
    /// The links of a node.
    Next(usize, u32),
    Parent(usize, u32),
    Last(usize, u32),
    /// The fields of a Scope.
    Status(usize, u8),
    Merged(usize, u32),
    First(usize, u32),
    Begin(usize, u32),
    /// The next declaration in its list.
    Declared(usize, u32),
}

impl Damage {
    /// Writes the field.
    pub fn apply(self, sheet: &mut Sheet<'_>) -> Result<(), Fail> {
        match self {
            Damage::Types(count) => sheet.types.count = count,
            Damage::Nodes(count) => sheet.nodes.count = count,
            Damage::Innermost(node) => sheet.innermost = node,
            Damage::Kind(n, kind) => row(&mut sheet.types, n)?.kind = kind,
            Damage::Child(n, child) => row(&mut sheet.values, n)?.r = child,
            Damage::Value(n, value) => row(&mut sheet.nodes, n)?.made.s = value,
            Damage::Next(n, next) => row(&mut sheet.nodes, n)?.next = next,
            Damage::Parent(n, parent) => row(&mut sheet.nodes, n)?.parent = parent,
            Damage::Last(n, last) => row(&mut sheet.nodes, n)?.last = last,
            Damage::Status(n, status) => row(&mut sheet.scopes, n)?.status = status,
            Damage::Merged(n, merged) => row(&mut sheet.scopes, n)?.merged = merged,
            Damage::First(n, first) => row(&mut sheet.scopes, n)?.first = first,
            Damage::Begin(n, begin) => row(&mut sheet.scopes, n)?.begin = begin,
            Damage::Declared(n, next) => row(&mut sheet.declarations, n)?.next = next,
        }
        Ok(())
    }
}

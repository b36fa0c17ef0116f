//! Whether the rows that an entry names are put, and of the right kind.

ghost use Rattle.std.specs.Prelude.{◌≡◌, Some};
ghost use Rattle.screen.specs.Lists.{is_put, span};
ghost use Rattle.screen.specs.Named.{operand, inner, value_named, node_named, put_named, part_named, named};
ghost use Rattle.sheet.specs.Tables.{items, memory};
ghost use Rattle.sheet.specs.Planted.{statuses_of};
ghost use Rattle.sheet.specs.Holds.{rows_of, Within};

use crate::rows::ScopeRow;
use crate::sheet::Sheet;
use screen::{
    Entry, IdentifierId, IdentifierRow, Node, Part, Put, ReadRow, Reads, TypeId, Value, ValueId,
    ValueRow,
};

/// The kind of a value that is an inner instruction, as its lent row keeps it: a number. The definitions compare it as it stands, and
/// `Value::from` would read the other fields too.
const INNER: u8 = 16;

/// Whether row n is put.
pub(crate) fn is_put<T>(rows: &[T], n: usize) -> bool
    ensures { result ≡ is_put rows.now n }
{
    n < rows.len()
}

/// Whether `count` rows from `first` on are put. Both are the numbers of a lent row, of whichever table.
pub(crate) fn is_span<T>(rows: &[T], first: u32, count: u16) -> bool
    ensures { result ≡ span rows.now first count }
{
    first as usize + count as usize <= rows.len()
}

/// Whether value k is put, and is no inner instruction.
fn is_operand(values: &[ValueRow], k: ValueId) -> bool
    ensures { result ≡ operand values.now k }
{
    values.get(k.index()).is_some_and(|row| row.kind != INNER)
}

/// Whether value k is put, and is an inner instruction.
fn is_inner(values: &[ValueRow], k: ValueId) -> bool
    ensures { result ≡ inner values.now (Some k) }
{
    values.get(k.index()).is_some_and(|row| row.kind == INNER)
}

/// The rows that values and nodes may name.
#[derive(Clone, Copy, Debug, PartialEq, Eq)]
pub(crate) struct Named<'a> {
    pub identifiers: &'a [IdentifierRow],
    pub reads: &'a [ReadRow],
    pub values: &'a [ValueRow],
    pub scopes: &'a [ScopeRow],
}

impl Named<'_> {
    /// Whether an instruction's reads are put.
    fn reads_put(self, reads: Reads) -> bool
        ensures { result ≡ span self.entry.reads.now reads.first reads.count }
    {
        is_span(self.reads, u32::from(reads.first), reads.count)
    }

    /// Whether a value's reads, its stored identifier and its children are put.
    pub(crate) fn value_named(self, value: &Value) -> bool
        ensures { result ≡ value_named self.entry.identifiers.now self.entry.reads.now self.entry.values.now value.now }
    {
        let values = self.values;
        match *value {
            Value::Other(reads) | Value::Simple(reads) | Value::LoadLocal(reads) => {
                self.reads_put(reads)
            }
            Value::StoreConst { reads, stored } | Value::StoreLocal { reads, stored } => {
                self.reads_put(reads) && is_put(self.identifiers, stored.index())
            }
            Value::Logical { left, right } => is_operand(values, left) && is_operand(values, right),
            Value::Conditional {
                test,
                consequent,
                alternate,
            } => {
                is_operand(values, test)
                    && is_operand(values, consequent)
                    && is_operand(values, alternate)
            }
            Value::Sequence { value, first, .. } => {
                is_operand(values, value) && first.is_none_or(|k| is_inner(values, k))
            }
            Value::Optional { value } => is_operand(values, value),
            Value::Inner { value, next, .. } => {
                is_operand(values, value) && next.is_none_or(|k| is_inner(values, k))
            }
        }
    }

    /// Whether a node's value, its target or its Scope is put.
    pub(crate) fn node_named(self, node: &Node) -> bool
        ensures { result ≡ node_named self.entry.identifiers.now self.entry.values.now (statuses_of self.entry.scopes.now) node.now }
    {
        let values = self.values;
        let identifiers = self.identifiers;
        match *node {
            Node::Body | Node::Arm => true,
            Node::Add { value, target, .. } => {
                is_operand(values, value) && target.is_none_or(|k| is_put(identifiers, k.index()))
            }
            Node::Terminal { value, .. } => value.is_none_or(|k| is_operand(values, k)),
            Node::Scope { scope } | Node::Pruned { scope } => is_put(self.scopes, scope.index()),
        }
    }
}

/// Whether the row that a new row names is put.
fn put_named(s: &Sheet<'_>, put: &Put) -> bool
    requires { Within (memory s.now) }
    ensures { result ≡ put_named (rows_of (memory s.now)) put.now }
{
    match *put {
        Put::Type { .. } | Put::Path { .. } | Put::Scope { .. } | Put::Shape(_) => true,
        Put::Identifier(row) => is_put(s.types.put(), TypeId::from(row.typ).index()),
        Put::Read(row) => is_put(
            s.identifiers.put(),
            IdentifierId::from(row.identifier).index(),
        ),
    }
}

/// Whether the rows that a part of a Scope names are put.
fn part_named(s: &Sheet<'_>, part: &Part) -> bool
    requires { Within (memory s.now) }
    ensures { result ≡ part_named (rows_of (memory s.now)) part.now }
{
    let identifiers = s.identifiers.put();
    match *part {
        Part::Dependency(row) => is_put(identifiers, IdentifierId::from(row.identifier).index())
            && is_span(s.paths.put(), row.first, row.length),
        Part::Declaration { key, declared } => is_put(identifiers, key.index())
            && is_put(identifiers, declared.index()),
        Part::Reassignment { identifier } => is_put(identifiers, identifier.index()),
    }
}

impl Sheet<'_> {
    /// The rows that values and nodes may name.
    pub(crate) fn named_rows(&self) -> Named<'_>
        requires { Within (memory self.now) }
        ensures identifiers { result.identifiers.now ≡ (items (memory self.now).identifiers) }
        ensures reads { result.reads.now ≡ (items (memory self.now).reads) }
        ensures values { result.values.now ≡ (items (memory self.now).values) }
        ensures scopes { result.scopes.now ≡ (items (memory self.now).scopes) }
    {
        Named {
            identifiers: self.identifiers.put(),
            reads: self.reads.put(),
            values: self.values.put(),
            scopes: self.scopes.put(),
        }
    }

    /// Whether the rows that an entry names are put, and of the right kind.
    pub(crate) fn named(&self, entry: &Entry) -> bool
        requires { Within (memory self.now) }
        ensures { result ≡ named (rows_of (memory self.now)) (statuses_of (items (memory self.now).scopes)) entry.now }
    {
        match entry {
            Entry::Put(put) => put_named(self, put),
            Entry::Part(part) => self.scopes.count > 0 && part_named(self, part),
            Entry::Value(row) => self.named_rows().value_named(&Value::from(*row)),
            Entry::Node(node) => self.named_rows().node_named(node),
            Entry::Close | Entry::List => true,
        }
    }
}

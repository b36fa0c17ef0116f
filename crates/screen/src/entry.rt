//! What a record asks for, read off its fields. Here its numbers become enums: a tag, p of an Open, the kind of a value and the mark of a
//! path entry stand as numbers here, in a row's record, and where a row becomes a `Value`. An enum of the numbers alone would be no plainer:
//! it would be taken apart at once, into the `Entry`, the `Node` or the `Value` that it stands for.

ghost use Rattle.std.specs.Prelude.{◌≡◌, ◌&&◌, ◌||◌, ◌==◌, nat_lt};
ghost use Rattle.std.specs.Option.{ok_or};
ghost use Rattle.screen.specs.declared.answer.Refusal.TheVariants.{Field};
ghost use Rattle.screen.specs.Entries.{entry_of, node_of, listed, type_entry, identifier_entry, path_entry, scope_entry, dependency_entry, declaration_entry, reassignment_entry, read_entry, value_listed, value_entry, add_entry, terminal_entry, arm_entry, opened_entry, open_entry, plain_entry, shape_entry, blank};

use crate::answer::Refusal;
use crate::id::{IdentifierId, ScopeId, ValueId};
use crate::kinds::{PathKind, TerminalKind, TypeKind};
use crate::node::Node;
use crate::rows::{DependencyRow, IdentifierRow, NONE, ReadRow, ShapeRow, ValueRow};
use crate::value::optional;
use block::Record;

/// A row to be put, which stands for itself.
#[derive(Clone, Copy, Debug, PartialEq, Eq)]
pub enum Put {
    Type {
        kind: TypeKind,
        shape: u32,
    },
    Identifier(IdentifierRow),
    /// A path entry of the kind: the low and the high half of it.
    Path {
        low: u32,
        high: u32,
        kind: PathKind,
        optional: bool,
    },
    /// A Scope of this range.
    Scope {
        start: u32,
        end: u32,
    },
    Read(ReadRow),
    Shape(ShapeRow),
}

/// A part of the Scope put last.
#[derive(Clone, Copy, Debug, PartialEq, Eq)]
pub enum Part {
    Dependency(DependencyRow),
    /// Its key and what it declares, both identifiers.
    Declaration {
        key: IdentifierId,
        declared: IdentifierId,
    },
    Reassignment {
        identifier: IdentifierId,
    },
}

/// A record whose fields keep their list.
#[derive(Clone, Copy, Debug, PartialEq, Eq)]
pub enum Entry {
    Put(Put),
    Part(Part),
    Value(ValueRow),
    /// An Add, or an Open.
    Node(Node),
    Close,
    List,
}

impl From<Record> for Node {
    ghost from_gives = { λ x node. node ≡ node_of x };

    /// The node that a record made. The body's record is all zeros.
    // The examination reads each node's row several times, for one question each. Inlined, a reading does only what its question needs.
    #[inline(always)]
    fn from(x: Record) -> Node {
        match Entry::try_from(x) {
            Ok(Entry::Node(node)) => node,
            _ => Node::Body,
        }
    }
}

impl TryFrom<Record> for Entry {
    type Error = Refusal;

    ghost try_from_gives = { λ x entry. entry ≡ ok_or (entry_of x) Field };

    /// What a record asks for. Its tag may be unknown, or a field break its list. Each tag has a list of its own, and so a function.
    // Inlined for the same, where a row is read as a node or only asked whether it keeps its list.
    #[inline(always)]
    #[tactic(auto, unfolding(crate::specs::Entries::entry_of))]
    fn try_from(x: Record) -> Result<Entry, Refusal> {
        match x.tag {
            1 => type_entry(x),
            2 => identifier_entry(x),
            3 => path_entry(x),
            4 => scope_entry(x),
            5 => dependency_entry(x),
            6 => declaration_entry(x),
            7 => reassignment_entry(x),
            8 => read_entry(x),
            9 => value_entry(x),
            10 => add_entry(x),
            11 => open_entry(x),
            12 => plain_entry(x, Entry::Close),
            14 => plain_entry(x, Entry::List),
            15 => shape_entry(x),
            _ => Err(Refusal::Field),
        }
    }
}

/// The entry, where the fields of its record keep their list.
fn listed(keeps: bool, entry: Entry) -> Result<Entry, Refusal>
    ensures { result ≡ ok_or (listed keeps entry) Field }
{
    if keeps {
        Ok(entry)
    } else {
        Err(Refusal::Field)
    }
}

/// A type: p its kind, r its shape.
fn type_entry(x: Record) -> Result<Entry, Refusal>
    ensures { result ≡ ok_or (type_entry x) Field }
{
    let kind = TypeKind::try_from(x.p)?;
    listed(
        x.q == 0 && x.s == 0 && x.t == 0,
        Entry::Put(Put::Type { kind, shape: x.r }),
    )
}

/// An identifier: r its declaration, s its type.
fn identifier_entry(x: Record) -> Result<Entry, Refusal>
    ensures { result ≡ ok_or (identifier_entry x) Field }
{
    listed(
        x.r <= 1023 && x.p == 0 && x.q == 0 && x.t == 0,
        Entry::Put(Put::Identifier(IdentifierRow {
            declaration: x.r,
            typ: x.s,
        })),
    )
}

/// A path entry: p whether it is optional, q whether it is a number, r and s its halves.
fn path_entry(x: Record) -> Result<Entry, Refusal>
    ensures { result ≡ ok_or (path_entry x) Field }
{
    let kind = PathKind::try_from(x.q)?;
    listed(
        x.p <= 1 && x.t == 0,
        Entry::Put(Put::Path {
            low: x.r,
            high: x.s,
            kind,
            optional: x.p == 1,
        }),
    )
}

/// A Scope: r the start and s the end of its range, two orders.
fn scope_entry(x: Record) -> Result<Entry, Refusal>
    ensures { result ≡ ok_or (scope_entry x) Field }
{
    listed(
        x.r < NONE && x.s < NONE && x.p == 0 && x.q == 0 && x.t == 0,
        Entry::Put(Put::Scope {
            start: x.r,
            end: x.s,
        }),
    )
}

/// A dependency: r its identifier, q path entries from s on; with none of them s is 0.
fn dependency_entry(x: Record) -> Result<Entry, Refusal>
    ensures { result ≡ ok_or (dependency_entry x) Field }
{
    let from = x.q > 0 || x.s == 0;
    listed(
        from && x.p == 0 && x.t == 0,
        Entry::Part(Part::Dependency(DependencyRow {
            identifier: x.r,
            first: x.s,
            length: x.q,
        })),
    )
}

/// A declaration: r its key and s what it declares, two identifiers.
fn declaration_entry(x: Record) -> Result<Entry, Refusal>
    ensures { result ≡ ok_or (declaration_entry x) Field }
{
    listed(
        x.p == 0 && x.q == 0 && x.t == 0,
        Entry::Part(Part::Declaration {
            key: IdentifierId::from(x.r),
            declared: IdentifierId::from(x.s),
        }),
    )
}

/// Whether no field but r says anything.
fn names_r_alone(x: Record) -> bool
    ensures { result ≡ blank x.p && blank x.q && blank x.s && blank x.t }
{
    let bare = Record {
        tag: x.tag,
        r: x.r,
        ..Record::default()
    };
    x == bare
}

/// A reassignment of the identifier r.
fn reassignment_entry(x: Record) -> Result<Entry, Refusal>
    ensures { result ≡ ok_or (reassignment_entry x) Field }
{
    listed(
        names_r_alone(x),
        Entry::Part(Part::Reassignment {
            identifier: IdentifierId::from(x.r),
        }),
    )
}

/// A read of the identifier r.
fn read_entry(x: Record) -> Result<Entry, Refusal>
    ensures { result ≡ ok_or (read_entry x) Field }
{
    listed(
        names_r_alone(x),
        Entry::Put(Put::Read(ReadRow { identifier: x.r })),
    )
}

/// Whether an instruction's fields keep their list: q reads from r on, 0 where there are none, and no store.
fn plain_listed(x: Record) -> bool
    ensures { result ≡ (nat_lt 0 x.q || blank x.r) && x.s == 4294967295 && blank x.t }
{
    let from = x.q > 0 || x.r == 0;
    from && x.s == NONE && x.t == 0
}

/// Whether a value's fields keep the list of its kind p. `Value` is the enum of these kinds, which a row becomes once it keeps its list.
fn value_listed(x: Record) -> bool
    ensures { result ≡ value_listed x }
{
    match x.p {
        5 => x.q == 1 && x.s == NONE && x.t == 0,
        0..=9 => plain_listed(x),
        10 | 11 => x.q == 1 && x.t == 0,
        12 => x.q == 0 && x.t == 0,
        13 => x.q == 0,
        15 => x.q == 0 && x.s == 0 && x.t == 0,
        14 | 16 => x.r < NONE && x.q == 0,
        _ => false,
    }
}

/// A value of the kind p.
fn value_entry(x: Record) -> Result<Entry, Refusal>
    ensures { result ≡ ok_or (value_entry x) Field }
{
    listed(
        value_listed(x),
        Entry::Value(ValueRow {
            r: x.r,
            s: x.s,
            t: x.t,
            q: x.q,
            kind: x.p,
        }),
    )
}

/// An instruction: r its order, s its value, t its target or none.
fn add_entry(x: Record) -> Result<Entry, Refusal>
    ensures { result ≡ ok_or (add_entry x) Field }
{
    listed(
        x.r < NONE && x.p == 0 && x.q == 0,
        Entry::Node(Node::Add {
            order: x.r,
            value: ValueId::from(x.s),
            target: optional(x.t).map(IdentifierId::from),
        }),
    )
}

/// A terminal of the kind q: r its order, s its value or none.
fn terminal_entry(x: Record) -> Result<Entry, Refusal>
    ensures { result ≡ ok_or (terminal_entry x) Field }
{
    let kind = TerminalKind::try_from(x.q)?;
    listed(
        x.r < NONE && x.t == 0,
        Entry::Node(Node::Terminal {
            kind,
            order: x.r,
            value: optional(x.s).map(ValueId::from),
        }),
    )
}

/// An arm, which has no field. Its p is given, and a record to compare the other four with would be no shorter.
fn arm_entry(x: Record) -> Result<Entry, Refusal>
    ensures { result ≡ ok_or (arm_entry x) Field }
{
    listed(
        x.q == 0 && x.r == 0 && x.s == 0 && x.t == 0,
        Entry::Node(Node::Arm),
    )
}

/// A Scope with p 2 or a PrunedScope with p 3, r its Scope.
fn opened_entry(x: Record) -> Result<Entry, Refusal>
    ensures { result ≡ ok_or (opened_entry x) Field }
{
    let scope = ScopeId::from(x.r);
    let node = if x.p == 2 {
        Node::Scope { scope }
    } else {
        Node::Pruned { scope }
    };
    listed(
        x.p <= 3 && x.q == 0 && x.s == 0 && x.t == 0,
        Entry::Node(node),
    )
}

/// What Open makes, by p.
fn open_entry(x: Record) -> Result<Entry, Refusal>
    ensures { result ≡ ok_or (open_entry x) Field }
{
    match x.p {
        0 => terminal_entry(x),
        1 => arm_entry(x),
        _ => opened_entry(x),
    }
}

/// A record with no field.
fn plain_entry(x: Record, entry: Entry) -> Result<Entry, Refusal>
    ensures { result ≡ ok_or (plain_entry x entry) Field }
{
    let bare = Record {
        tag: x.tag,
        ..Record::default()
    };
    listed(x == bare, entry)
}

/// A shape of the host's own, not 0.
fn shape_entry(x: Record) -> Result<Entry, Refusal>
    ensures { result ≡ ok_or (shape_entry x) Field }
{
    listed(
        x.r > 0 && names_r_alone(x),
        Entry::Put(Put::Shape(ShapeRow { shape: x.r })),
    )
}

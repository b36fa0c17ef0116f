//! What an accepted entry writes.

ghost use Rattle.std.specs.Prelude.{◌≡◌, ◌<◌, length, Some, None, ◌≢◌};
ghost use Rattle.screen.specs.Entries.{entry_of};
ghost use Rattle.screen.specs.State.{State};
ghost use Rattle.screen.specs.Refused.{refused_of};
ghost use Rattle.screen.specs.Step.{after};
ghost use Rattle.sheet.specs.Tables.{memory};
ghost use Rattle.sheet.specs.Holds.{Holds};
ghost use Rattle.sheet.specs.Kept.{Long, RestKept};
ghost use Rattle.sheet.specs.Ends.{end_of};
ghost use Rattle.sheet.specs.Written.{put_in, part_in, value_in, with_scopes, with_nodes, change_scope, declared_first, declared_next, first_declared, last_scope, standing, reassigning, NodePut, NodeIn, closed_in, Wrote};
ghost use Rattle.sheet.specs.Room.{PutRoom, Room, LastRoom, DeclarationRoom, PartRoom, ScopeRoom, ChildRoom, NodeRoom, EntryRoom};

use crate::rows::{DeclarationRow, ScopeRow};
use crate::sheet::Sheet;
use crate::tree::append;
use block::Record;
use screen::{
    Entry, IdentifierId, NONE, Node, NodeId, Part, PathRow, Put, ScopeId, TypeRow, ValueRow,
};

/// The last row of the list from `first`, which has at most as many rows as are put; none is no row's number.
fn last_row(rows: &[DeclarationRow], first: u32) -> u32
    requires { first < length rows.now }
    ensures is { result ≡ end_of rows.now first }
    ensures within { result < length rows.now }
{
    let mut at = first;
    // the list goes by its rows' links; the rows' number only bounds the steps
    for _step in 0..rows.len() {
        let next = rows[at as usize].next;
        if next as usize >= rows.len() {
            return at;
        }
        at = next;
    }
    at
}

impl Sheet<'_> {
    /// Puts a new row, for which there is room.
    fn put_row(&mut self, put: &Put)
        requires { PutRoom (memory self.old) put.now }
        ensures { memory self.new ≡ put_in (memory self.old) put.now }
    {
        match *put {
            Put::Type { kind, shape } => self.types.push(TypeRow {
                shape,
                kind: u8::from(kind),
            }),
            Put::Identifier(row) => self.identifiers.push(row),
            Put::Path {
                low,
                high,
                kind,
                optional,
            } => self.paths.push(PathRow {
                low,
                high,
                kind: u16::from(kind),
                optional: u8::from(optional),
            }),
            Put::Scope { start, end } => {
                let begin = self.dependencies.count;
                self.scopes.push(ScopeRow::new(start, end, begin));
            }
            Put::Read(row) => self.reads.push(row),
            Put::Shape(row) => self.shapes.push(row),
        }
    }

    /// Puts a value, for which there is room.
    fn put_value(&mut self, row: ValueRow)
        requires { Room (memory self.old).values }
        ensures { memory self.new ≡ value_in (memory self.old) row }
    {
        self.values.push(row);
    }

    /// Notes that the Scope put last reassigns.
    fn reassign(&mut self)
        requires { LastRoom (memory self.old) }
        ensures { memory self.new ≡ with_scopes (memory self.old) (change_scope (memory self.old).scopes (last_scope (memory self.old)) reassigning) }
    {
        let last = self.scopes.count as usize - 1;
        self.scopes.rows[last] = self.scopes.rows[last].reassigning();
    }

    /// Puts the first declaration of the Scope put last.
    fn declare_first(&mut self, key: IdentifierId, declared: IdentifierId)
        requires { DeclarationRoom (memory self.old) }
        ensures { memory self.new ≡ declared_first (memory self.old) key declared }
    {
        let first = self.declarations.count;
        self.declarations.push(DeclarationRow::new(key, declared));
        let last = self.scopes.count as usize - 1;
        let row = self.scopes.rows[last];
        self.scopes.rows[last] = ScopeRow { first, ..row };
    }

    /// Puts a declaration after the last one of the Scope put last.
    fn declare_next(&mut self, key: IdentifierId, declared: IdentifierId)
        requires room { DeclarationRoom (memory self.old) }
        requires some { first_declared (memory self.old) ≢ 4294967295 }
        ensures { memory self.new ≡ declared_next (memory self.old) key declared }
    {
        let first = self.scopes.rows[self.scopes.count as usize - 1].first;
        let end = last_row(self.declarations.put(), first) as usize;
        let next = self.declarations.count;
        self.declarations.push(DeclarationRow::new(key, declared));
        let row = self.declarations.rows[end];
        self.declarations.rows[end] = DeclarationRow { next, ..row };
    }

    /// Puts a part of the Scope put last.
    fn put_part(&mut self, part: &Part)
        requires { PartRoom (memory self.old) part.now }
        ensures { memory self.new ≡ part_in (memory self.old) part.now }
    {
        match *part {
            Part::Dependency(row) => self.dependencies.push(row),
            // The two go on as they stand in the part: a struct of them would be made here and taken apart in `DeclarationRow::new`.
            Part::Declaration { key, declared } => {
                // the link of a lent row is a number, which may be none
                if self.scopes.rows[self.scopes.count as usize - 1].first == NONE {
                    self.declare_first(key, declared);
                } else {
                    self.declare_next(key, declared);
                }
            }
            Part::Reassignment { .. } => self.reassign(),
        }
    }

    /// Makes a Scope stand.
    fn stand(&mut self, scope: ScopeId)
        requires { ScopeRoom (memory self.old) scope }
        ensures { memory self.new ≡ with_scopes (memory self.old) (change_scope (memory self.old).scopes scope standing) }
    {
        self.scopes.rows[scope.index()] = self.scopes.rows[scope.index()].standing();
    }

    /// Puts a node after the last child of the innermost open node.
    fn put_child(&mut self, made: Record)
        requires { ChildRoom (memory self.old) }
        ensures put { NodePut (memory self.old).nodes (memory self.old).innermost made (memory self.new).nodes }
        ensures is { memory self.new ≡ with_nodes (memory self.old) (memory self.new).nodes }
    {
        append(&mut self.nodes, NodeId::from(self.innermost), made);
    }

    /// Puts a node, which is the innermost open node then unless Add made it.
    fn put_node(&mut self, made: Record, node: &Node)
        requires { NodeRoom (memory self.old) node.now }
        ensures { NodeIn (memory self.old) made node.now (memory self.new) }
    {
        let n = self.nodes.count;
        self.put_child(made);
        match *node {
            Node::Add { .. } => {}
            Node::Scope { scope } => {
                self.stand(scope);
                self.innermost = n;
            }
            Node::Body | Node::Terminal { .. } | Node::Arm | Node::Pruned { .. } => self.innermost =
                n,
        }
    }

    /// Closes the innermost open node.
    fn close(&mut self)
        requires { (memory self.old).innermost < length (memory self.old).nodes.rows }
        ensures { memory self.new ≡ closed_in (memory self.old) }
    {
        self.innermost = self.nodes.rows[self.innermost as usize].parent;
    }

    /// Writes an entry, for which there is room; `made` is its record.
    fn put_entry(&mut self, made: Record, entry: &Entry)
        requires { EntryRoom (memory self.old) entry.now }
        ensures { Wrote (memory self.old) made entry.now (memory self.new) }
    {
        match entry {
            Entry::Put(put) => self.put_row(put),
            Entry::Part(part) => self.put_part(part),
            Entry::Value(row) => self.put_value(*row),
            Entry::Node(node) => self.put_node(made, node),
            Entry::Close => self.close(),
            Entry::List => {}
        }
    }

    /// Writes an accepted entry; `made` is its record.
    pub(crate) fn write(&mut self, made: Record, entry: &Entry)
        requires ready { (σ : State) × Holds (memory self.old) σ × (entry_of made ≡ Some entry.now) × (refused_of σ entry.now ≡ None) }
        requires long { Long (memory self.old) }
        ensures holds { (σ : State) → Holds (memory self.old) σ → Holds (memory self.new) (after σ entry.now) }
        ensures rest { RestKept (memory self.old) (memory self.new) }
    {
        self.put_entry(made, entry);
    }
}

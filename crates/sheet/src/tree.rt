//! The tree in the node rows: a new node, and the way up.

ghost use Rattle.std.specs.Prelude.{◌≡◌, ℕ, ◌+◌, ◌<◌, List, length, drop, ◌≢◌};
ghost use Rattle.screen.specs.declared.scope.Status.{Status};
ghost use Rattle.screen.specs.Forest.{Forest};
ghost use Rattle.sheet.specs.Links.{row};
ghost use Rattle.sheet.specs.Tables.{items, stored};
ghost use Rattle.sheet.specs.Planted.{Planted};
ghost use Rattle.sheet.specs.Appended.{attached, appended};

use crate::rows::NodeRow;
use crate::table::Table;
use block::Record;
use screen::{NONE, NodeId};

/// Puts the siblings from `first` to `last` after the last child of a node.
pub(crate) fn attach(nodes: &mut [NodeRow], parent: NodeId, first: NodeId, last: NodeId)
    requires within { parent < length nodes.old }
    requires last { ((row nodes.old parent).last ≢ 4294967295) → (row nodes.old parent).last < length nodes.old }
    ensures { nodes.new ≡ attached nodes.old parent first last }
{
    let holder = nodes[parent.index()];
    // the link of a lent row is a number, which may be none
    if holder.last == NONE {
        nodes[parent.index()] = NodeRow {
            first: u32::from(first),
            last: u32::from(last),
            ..holder
        };
    } else {
        let before = nodes[holder.last as usize];
        nodes[holder.last as usize] = NodeRow {
            next: u32::from(first),
            ..before
        };
        nodes[parent.index()] = NodeRow {
            last: u32::from(last),
            ..holder
        };
    }
}

/// Puts a new node after the last child of an open node.
pub(crate) fn append(nodes: &mut Table<'_, NodeRow>, parent: NodeId, made: Record)
    requires room { nodes.old.count < length nodes.old.rows.now }
    requires few { nodes.old.count < 1024 }
    requires within { parent < nodes.old.count }
    requires last { ((row (items (stored nodes.old)) parent).last ≢ 4294967295) → (row (items (stored nodes.old)) parent).last < nodes.old.count }
    ensures rows { items (stored nodes.new) ≡ appended (items (stored nodes.old)) parent made }
    ensures count { nodes.new.count ≡ nodes.old.count + 1 }
    ensures rest { drop (nodes.old.count + 1) nodes.new.rows.now ≡ drop (nodes.old.count + 1) nodes.old.rows.now }
    ensures long { length nodes.new.rows.now ≡ length nodes.old.rows.now }
{
    let n = NodeId::from(nodes.count);
    nodes.push(NodeRow::new(made, u32::from(parent)));
    attach(nodes.rows, parent, n, n);
}

/// How many nodes below the body are open, from the innermost up.
pub(crate) fn open_count(nodes: &[NodeRow], innermost: NodeId) -> u32
    requires { (ss : List Status) × (f : Forest) × (o : ℕ) × Planted nodes.now ss innermost f o }
    ensures { (ss : List Status) (f : Forest) (o : ℕ) → Planted nodes.now ss innermost f o → result ≡ o }
{
    let mut at = u32::from(innermost);
    let mut n: u32 = 0;
    // the way up goes by the parents' links, which no slice lists
    while at != 0 {
        at = nodes[at as usize].parent;
        n += 1;
    }
    n
}

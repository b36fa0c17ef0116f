//! A walk over the tree that tests each link before it follows it.

ghost use Rattle.std.specs.Prelude.{◌≡◌, ◌+◌, ◌<◌, ◌≤◌, true, length, Decides, MatchOption, ◌≢◌};
ghost use Rattle.screen.specs.declared.node.Node.TheVariants.{Body};
ghost use Rattle.screen.specs.Entries.{node_of};
ghost use Rattle.screen.specs.Forest.{Forest, body, shallow, size};
ghost use Rattle.sheet.specs.Links.{Links, row};
ghost use Rattle.sheet.specs.Seats.{Fit, entered, roomy, returned};

use crate::rows::NodeRow;
use screen::{NONE, Node};

/// The lowest level below the body at which a node may be held that Add did not make.
const DEEPEST: u32 = 63;

/// Where the walk is: a node, its child to enter next and the one before that, the node's level below the body,
/// and how many nodes may yet be entered. `child` and `prev` are links as the rows have them, none among them: a step copies
/// them from the rows and compares them with the rows' links.
#[derive(Clone, Copy, Debug, PartialEq, Eq)]
pub struct Seat {
    pub node: u32,
    pub child: u32,
    pub prev: u32,
    pub level: u32,
    pub left: usize,
}

/// Whether a node may be held at this level. Only Add goes one level further down.
fn has_room(level: u32, node: &Node) -> bool
    ensures { result ≡ roomy level node.now }
{
    level < DEEPEST || node.is_add()
}

/// Whether the next step can be taken: into a child that names its parent, or out of a node at its last child.
fn fits(nodes: &[NodeRow], at: Seat) -> bool
    requires { (at.node < length nodes.now) × (length nodes.now ≤ 1024) }
    ensures { Decides result (Fit nodes.now at) }
{
    if at.child == NONE {
        return nodes[at.node as usize].last == at.prev;
    }
    if at.child as usize >= nodes.len() || at.left == 0 {
        return false;
    }
    let row = nodes[at.child as usize];
    row.parent == at.node && has_room(at.level, &Node::from(row.made))
}

/// The place after the next step.
fn on(nodes: &[NodeRow], at: Seat) -> Seat
    requires node_in_bounds { (at.node < length nodes.now) × (length nodes.now ≤ 1024) × (at.level + at.left ≤ 1024) }
    requires fit { Fit nodes.now at }
    requires level_nonzero { at.child ≡ 4294967295 → 0 < at.level }
    ensures down { (at.child ≢ 4294967295) → result ≡ entered nodes.now at }
    ensures up { at.child ≡ 4294967295 → result ≡ returned nodes.now at }
{
    if at.child != NONE {
        let first = nodes[at.child as usize].first;
        Seat {
            node: at.child,
            child: first,
            prev: NONE,
            level: at.level + 1,
            left: at.left - 1,
        }
    } else {
        let row = nodes[at.node as usize];
        Seat {
            node: row.parent,
            child: row.next,
            prev: at.node,
            level: at.level - 1,
            left: at.left,
        }
    }
}

/// How many nodes the tree has; none where the links are not those of a tree.
pub(crate) fn tree_size(nodes: &[NodeRow]) -> Option<usize>
    requires few { (0 < length nodes.now) × (length nodes.now ≤ 1024) }
    requires body { node_of (row nodes.now 0).made ≡ Body }
    ensures { MatchOption result ((f : Forest) → Links nodes.now 4294967295 (body f) → shallow 63 f ≡ true → ⊥) (λ n. (f : Forest) × Links nodes.now 4294967295 (body f) × (shallow 63 f ≡ true) × (size (body f) ≡ n)) }
{
    let body = nodes[0];
    if body.parent != NONE || body.next != NONE {
        return None;
    }
    let mut at = Seat {
        node: 0,
        child: body.first,
        prev: NONE,
        level: 0,
        left: nodes.len() - 1,
    };
    // The walk goes by the rows' links and keeps no stack of nodes, as an iterator over them would.
    while fits(nodes, at) {
        if at.child == NONE && at.node == 0 {
            return Some(nodes.len() - at.left);
        }
        at = on(nodes, at);
    }
    None
}

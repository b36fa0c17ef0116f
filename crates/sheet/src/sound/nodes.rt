//! Which nodes should be in the tree, and what their rows have to be.

ghost use Rattle.std.specs.Prelude.{◌≡◌, ℕ, ◌<◌, length, Decides, ◌==◌};
ghost use Rattle.screen.specs.Standing.{reached};
ghost use Rattle.sheet.specs.Planted.{statuses_of};
ghost use Rattle.sheet.specs.Links.{Idle};
ghost use Rattle.sheet.specs.Fitting.{Kept, ScopesNamed, ScopesNamed-prop, expected};

use crate::rows::{NodeRow, ScopeRow};
use crate::users::status_at;
use screen::{NONE, Node, Status};

/// The rows that a tree stands in: the nodes', and those of the Scopes that the nodes opened.
#[derive(Clone, Copy, Debug, PartialEq, Eq)]
pub struct TreeRows<'a> {
    pub nodes: &'a [NodeRow],
    pub scopes: &'a [ScopeRow],

    // each node that opened a Scope names one that is there
    ghost named: { ScopesNamed nodes.now (length scopes.now) } by { ScopesNamed-prop nodes.now (length scopes.now) },
}

/// Whether a node opened a Scope that is joined or flattened, so that it should be in the tree no more. Each status is named, so that one
/// more would have to be decided here.
fn is_gone(scopes: &[ScopeRow], node: &Node) -> bool
    ensures { result ≡ (reached (statuses_of scopes.now) node.now == 0) }
{
    match *node {
        Node::Scope { scope } => match status_at(scopes, scope.index()) {
            Status::Joined | Status::Flattened => true,
            Status::Unused | Status::Standing => false,
        },
        _ => false,
    }
}

/// Whether a row has no link.
fn is_idle(nodes: &[NodeRow], node: usize) -> bool
    requires { node < length nodes.now }
    ensures { Decides result (Idle nodes.now node) }
{
    let row = nodes[node];
    row == NodeRow::new(row.made, NONE)
}

impl TreeRows<'_> {
    /// Whether the row of a node is as it has to be, by itself and its parent's.
    fn is_kept(self, node: usize) -> bool
        requires { node < length self.nodes.now }
        ensures { Decides result (Kept self.entry.nodes.now (statuses_of self.entry.scopes.now) node) }
    {
        let row = self.nodes[node];
        let made = Node::from(row.made);
        if is_gone(self.scopes, &made) {
            return is_idle(self.nodes, node);
        }
        let parent = row.parent as usize;
        node == 0
            || (parent < self.nodes.len() && Node::from(self.nodes[parent].made).can_hold(&made))
    }

    /// Whether every node row is as it has to be.
    pub(crate) fn all_kept(self) -> bool
        ensures { Decides result ((k : ℕ) → k < length self.entry.nodes.now → Kept self.entry.nodes.now (statuses_of self.entry.scopes.now) k) }
    {
        // By number, since a row does not say which node it is, and node 0 is the body.
        (0..self.nodes.len()).all(
            |node|
                requires { node < length self.nodes.now }
            { self.is_kept(node) },
        )
    }

    /// How many nodes should be in the tree.
    pub(crate) fn expected_size(self) -> usize
        ensures { result ≡ expected self.entry.nodes.now (statuses_of self.entry.scopes.now) (length self.entry.nodes.now) }
    {
        self.nodes
            .iter()
            .filter(|row| !is_gone(self.scopes, &Node::from(row.made)))
            .count()
    }
}

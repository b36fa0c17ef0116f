//! What a node of the tree is.

ghost use Rattle.std.specs.Prelude.{◌≡◌};
ghost use Rattle.screen.specs.Forest.{is_add, is_arm, can_hold};

use crate::id::{IdentifierId, ScopeId, ValueId};
use crate::kinds::TerminalKind;

/// A node, as Add or Open made it, or the body.
#[derive(Clone, Copy, Debug, PartialEq, Eq)]
pub enum Node {
    /// Node 0, which is there from the start.
    Body,
    /// An instruction.
    Add {
        order: u32,
        value: ValueId,
        target: Option<IdentifierId>,
    },
    /// A terminal.
    Terminal {
        kind: TerminalKind,
        order: u32,
        value: Option<ValueId>,
    },
    /// One of a terminal's blocks.
    Arm,
    /// A reactive Scope.
    Scope {
        scope: ScopeId,
    },
    /// A PrunedScope, which only names a Scope.
    Pruned {
        scope: ScopeId,
    },
}

impl Node {
    /// Whether Add made it, so that it is closed at once and holds nothing.
    pub fn is_add(&self) -> bool
        ensures { result ≡ is_add self.now }
    {
        matches!(self, Node::Add { .. })
    }

    /// Whether it is a terminal's block.
    fn is_arm(&self) -> bool
        ensures { result ≡ is_arm self.now }
    {
        matches!(self, Node::Arm)
    }

    /// Whether it can hold this child: a terminal holds arms, an instruction nothing, and the others all but arms.
    pub fn can_hold(&self, child: &Node) -> bool
        ensures { result ≡ can_hold self.now child.now }
    {
        match self {
            Node::Add { .. } => false,
            Node::Terminal { .. } => child.is_arm(),
            Node::Body | Node::Arm | Node::Scope { .. } | Node::Pruned { .. } => !child.is_arm(),
        }
    }
}

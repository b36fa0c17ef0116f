//! Whether the node rows hold a tree.

ghost use Rattle.std.specs.Prelude.{◌≡◌, ℕ, ◌<◌, ◌≤◌, length, Decides};
ghost use Rattle.screen.specs.declared.node.Node.TheVariants.{Body};
ghost use Rattle.screen.specs.Forest.{Forest};
ghost use Rattle.sheet.specs.Planted.{Planted, statuses_of};
ghost use Rattle.sheet.specs.Fitting.{node_at};

use crate::sound::nodes::TreeRows;
use crate::sound::open::can_be_open;
use crate::sound::walk::tree_size;

impl TreeRows<'_> {
    /// Whether the node rows hold a tree as they should.
    /// A tree of as many nodes as should be in it has all of them, so no node needs a mark.
    pub(crate) fn tree_sound(self, innermost: u32) -> bool
        requires few { (0 < length self.nodes.now) × (length self.nodes.now ≤ 1024) × (length self.scopes.now ≤ 256) }
        requires body { node_at self.nodes.now 0 ≡ Body }
        ensures { Decides result ((f : Forest) × (o : ℕ) × Planted self.entry.nodes.now (statuses_of self.entry.scopes.now) innermost f o) }
    {
        let Some(size) = tree_size(self.nodes) else {
            return false;
        };
        size == self.expected_size()
            && self.all_kept()
            && self.opened_once()
            && can_be_open(self.nodes, innermost)
    }
}

//! Whether the innermost open node is one that can be open.

ghost use Rattle.std.specs.Prelude.{◌≡◌, ℕ, ◌<◌, ◌≤◌, true, length, Decides, MatchOption};
ghost use Rattle.screen.specs.Forest.{Forest, body};
ghost use Rattle.screen.specs.Open.{innermost, opens};
ghost use Rattle.sheet.specs.Links.{Links, row};
ghost use Rattle.sheet.specs.Planted.{root};
ghost use Rattle.sheet.specs.Ladders.{Rung};

use crate::rows::NodeRow;
use screen::Node;

/// The most nodes that may be open, the body among them: one more than `MOST_OPEN` of `refusals`, which counts those below it.
const MOST_WITH_BODY: u32 = 64;

/// The parent of a node that can be open: of one that Add did not make, and that is its parent's last child.
fn holder(nodes: &[NodeRow], node: u32) -> Option<u32>
    ensures { MatchOption result (Rung nodes.now node → ⊥) (λ above. Rung nodes.now node × (above ≡ (row nodes.now node).parent)) }
{
    let row = nodes.get(node as usize)?;
    let parent = nodes.get(row.parent as usize)?;
    (parent.last == node && !Node::from(row.made).is_add()).then_some(row.parent)
}

/// Whether the nodes from this one up to the body can be open: last children that Open made, at most 64 with the body.
pub(crate) fn can_be_open(nodes: &[NodeRow], node: u32) -> bool
    requires few { (0 < length nodes.now) × (length nodes.now ≤ 1024) }
    ensures { (f : Forest) → Links nodes.now 4294967295 (body f) → Decides result ((o : ℕ) × (opens o f ≡ true) × (o ≤ 63) × ((innermost root o f).number ≡ node)) }
{
    // The way up goes by the rows' links; the most that may be open only bounds the steps.
    let mut at = node;
    for _step in 0..MOST_WITH_BODY {
        if at == 0 {
            return true;
        }
        let Some(above) = holder(nodes, at) else {
            return false;
        };
        at = above;
    }
    false
}

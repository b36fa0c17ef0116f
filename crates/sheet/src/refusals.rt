//! Why an entry is refused, if it is.

ghost use Rattle.std.specs.Prelude.{◌≡◌, Some, None, MatchResult};
ghost use Rattle.screen.specs.State.{State};
ghost use Rattle.screen.specs.Refused.{refused_of, top_of, put_full, part_full, no_room, misplaced, crowded};
ghost use Rattle.sheet.specs.Tables.{items, memory};
ghost use Rattle.sheet.specs.Planted.{statuses_of};
ghost use Rattle.sheet.specs.Holds.{rows_of, Within, Holds, Sound};

use crate::sheet::Sheet;
use crate::tree::open_count;
use screen::{Entry, Node, NodeId, Part, Put, Refusal};

/// The most nodes that may be open below the body.
const MOST_OPEN: u32 = 63;

/// Whether a new row's table has no room.
fn put_full(s: &Sheet<'_>, put: &Put) -> bool
    requires { Within (memory s.now) }
    ensures { result ≡ put_full (rows_of (memory s.now)) (statuses_of (items (memory s.now).scopes)) put.now }
{
    match put {
        Put::Type { .. } => s.types.is_full(),
        Put::Identifier(_) => s.identifiers.is_full(),
        Put::Path { .. } => s.paths.is_full(),
        Put::Scope { .. } => s.scopes.is_full(),
        Put::Read(_) => s.reads.is_full(),
        Put::Shape(_) => s.shapes.is_full(),
    }
}

/// Whether the table of a Scope's part has no room; reassignments are only noted in their Scope.
fn part_full(s: &Sheet<'_>, part: &Part) -> bool
    requires { Within (memory s.now) }
    ensures { result ≡ part_full (rows_of (memory s.now)) part.now }
{
    match part {
        Part::Dependency(_) => s.dependencies.is_full(),
        Part::Declaration { .. } => s.declarations.is_full(),
        Part::Reassignment { .. } => false,
    }
}

impl Sheet<'_> {
    /// Admits an entry, or answers the first reason that refuses it.
    pub(crate) fn admits(&self, entry: &Entry) -> Result<(), Refusal>
        requires { Sound (memory self.now) }
        ensures { (σ : State) → Holds (memory self.now) σ → MatchResult result (λ _. refused_of σ entry.now ≡ None) (λ r. refused_of σ entry.now ≡ Some r) }
    {
        if !self.named(entry) {
            return Err(Refusal::Row);
        }
        if self.used(entry) {
            return Err(Refusal::Used);
        }
        if self.deep(entry) {
            return Err(Refusal::Deep);
        }
        if self.no_room(entry) {
            return Err(Refusal::Full);
        }
        let top = innermost(self);
        if top.is_misplaced(entry) {
            return Err(Refusal::Place);
        }
        if top.is_crowded(entry) {
            return Err(Refusal::Open);
        }
        Ok(())
    }

    /// Whether the entry's table is at its limit.
    pub(crate) fn no_room(&self, entry: &Entry) -> bool
        requires { Within (memory self.now) }
        ensures { result ≡ no_room (rows_of (memory self.now)) (statuses_of (items (memory self.now).scopes)) entry.now }
    {
        match entry {
            Entry::Put(put) => put_full(self, put),
            Entry::Part(part) => part_full(self, part),
            Entry::Value(_) => self.values.is_full(),
            Entry::Node(_) => self.nodes.is_full(),
            Entry::Close | Entry::List => false,
        }
    }
}

/// The innermost open node, and how many nodes below the body are open.
#[derive(Clone, Copy, Debug, PartialEq, Eq)]
struct Top {
    node: Node,
    depth: u32,
}

/// Where the sheet is open.
fn innermost(s: &Sheet<'_>) -> Top
    requires { Sound (memory s.now) }
    ensures { (σ : State) → Holds (memory s.now) σ → (result.depth ≡ σ.opened) × (result.node ≡ top_of σ) }
{
    let nodes = s.nodes.put();
    let at = s.innermost;
    Top {
        node: Node::from(nodes[at as usize].made),
        depth: open_count(nodes, NodeId::from(at)),
    }
}

impl Top {
    /// Whether the innermost open node cannot hold this child, or Close finds only the body open.
    fn is_misplaced(&self, entry: &Entry) -> bool
        ensures { result ≡ misplaced self.now.node self.now.depth entry.now }
    {
        match entry {
            Entry::Node(node) => !self.node.can_hold(node),
            Entry::Close => self.depth == 0,
            Entry::Put(_) | Entry::Part(_) | Entry::Value(_) | Entry::List => false,
        }
    }

    /// Whether Open finds 64 nodes open, the body counted.
    fn is_crowded(&self, entry: &Entry) -> bool
        ensures { result ≡ crowded self.now.depth entry.now }
    {
        match entry {
            Entry::Node(node) => !node.is_add() && self.depth >= MOST_OPEN,
            Entry::Put(_) | Entry::Part(_) | Entry::Value(_) | Entry::Close | Entry::List => false,
        }
    }
}

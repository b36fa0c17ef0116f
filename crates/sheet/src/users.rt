//! Which values have a user.

ghost use Rattle.std.specs.Prelude.{◌≡◌, ℕ, ◌-◌, ◌||◌, ◌==◌, List, length, slice_index_or};
ghost use Rattle.screen.specs.declared.scope.Status.TheVariants.{Unused};
ghost use Rattle.screen.specs.Entries.{node_of};
ghost use Rattle.screen.specs.Lists.{member, gathered, present};
ghost use Rattle.screen.specs.Users.{names_of, names_in, value_in, namings, taken};
ghost use Rattle.screen.specs.Refused.{in_use, node_used, used};
ghost use Rattle.sheet.specs.Tables.{items, memory};
ghost use Rattle.sheet.specs.Planted.{nodes_of, statuses_of};
ghost use Rattle.sheet.specs.Holds.{rows_of, Within};

use crate::rows::{NodeRow, ScopeRow};
use crate::sheet::Sheet;
use screen::{Entry, Node, Status, Value, ValueId, ValueRow};

/// Whether k is among these rows, of which some are none.
fn among(names: &[Option<ValueId>], k: ValueId) -> bool
    ensures { result ≡ member k (present names.now) }
{
    names.contains(&Some(k))
}

/// The value that a node names.
fn value_in(node: Node) -> Option<ValueId>
    ensures { result ≡ value_in node }
{
    match node {
        Node::Add { value, .. } => Some(value),
        Node::Terminal { value, .. } => value,
        Node::Body | Node::Arm | Node::Scope { .. } | Node::Pruned { .. } => None,
    }
}

/// A row that names values.
pub trait Naming: Copy {
    // the numbers of the values that it names
    ghost names: { Self → List ℕ };

    /// The values that it names, in places that may be empty.
    fn names(&self) -> [Option<ValueId>; 4]
        ensures { present result ≡ names self.now };

    /// Whether it names value k. Each row is asked this for one record, so that a row with k in no field is told at once, before it is read as
    /// what it stands for.
    fn is_naming(&self, k: ValueId) -> bool
        ensures { result ≡ member k (names self.now) };
}

/// Whether k stands in one of the fields where a value's row may name a value.
fn has_field(row: &ValueRow, k: ValueId) -> bool
    ensures { result ≡ (row.now.r == k || row.now.s == k || row.now.t == k) }
{
    let n = u32::from(k);
    row.r == n || row.s == n || row.t == n
}

impl Naming for ValueRow {
    ghost names = { names_of };

    fn names(&self) -> [Option<ValueId>; 4] {
        Value::from(*self).children()
    }

    fn is_naming(&self, k: ValueId) -> bool {
        has_field(self, k) && among(&self.names(), k)
    }
}

impl Naming for NodeRow {
    ghost names = { λ n. names_in (node_of n.made) };

    fn names(&self) -> [Option<ValueId>; 4] {
        [value_in(Node::from(self.made)), None, None, None]
    }

    fn is_naming(&self, k: ValueId) -> bool {
        self.made.s == u32::from(k) && among(&self.names(), k)
    }
}

/// Whether one of the rows names value k.
fn is_named<R: Naming>(rows: &[R], k: ValueId) -> bool
    ensures { result ≡ member k (gathered R.Naming.names rows.now) }
{
    rows.iter().any(|row| row.is_naming(k))
}

/// The rows that name values, and the Scopes, which nodes open.
#[derive(Clone, Copy, Debug, PartialEq, Eq)]
struct Users<'a> {
    values: &'a [ValueRow],
    nodes: &'a [NodeRow],
    scopes: &'a [ScopeRow],
}

impl Users<'_> {
    /// Whether value k has a user.
    fn has_user(self, k: ValueId) -> bool
        ensures { result ≡ member k (namings self.entry.values.now (nodes_of self.entry.nodes.now)) }
    {
        is_named(self.values, k) || is_named(self.nodes, k)
    }

    /// Whether one of the values named here has a user, or is named twice.
    fn is_taken(self, names: &[Option<ValueId>]) -> bool
        ensures { result ≡ taken (namings self.entry.values.now (nodes_of self.entry.nodes.now)) (present names.now) }
    {
        // No plainer as a chain: it would put a closure into a closure, and a name would need its place all the same.
        for (i, name) in names.iter().enumerate() {
            if let Some(k) = *name {
                if self.has_user(k) || among(&names[i + 1..], k) {
                    return true;
                }
            }
        }
        false
    }

    /// Whether a value that a node names has a user, or the Scope that it opens is not unused.
    fn node_used(self, node: &Node) -> bool
        ensures { result ≡ node_used (namings self.entry.values.now (nodes_of self.entry.nodes.now)) (statuses_of self.entry.scopes.now) node.now }
    {
        match *node {
            Node::Body | Node::Arm | Node::Pruned { .. } => false,
            Node::Add { value, .. } => self.is_taken(&[Some(value)]),
            Node::Terminal { value, .. } => self.is_taken(&[value]),
            Node::Scope { scope } => in_use(self.scopes, scope.index()),
        }
    }
}

/// How Scope k stands; one that is not put is unused.
pub(crate) fn status_at(scopes: &[ScopeRow], k: usize) -> Status
    ensures { result ≡ slice_index_or (statuses_of scopes.now) k Unused }
{
    scopes
        .get(k)
        .map_or(Status::Unused, |row| Status::from(row.status))
}

/// Whether Scope k is not unused.
fn in_use(scopes: &[ScopeRow], k: usize) -> bool
    ensures { result ≡ in_use (statuses_of scopes.now) k }
{
    !status_at(scopes, k).is_unused()
}

/// Whether the Scope put last is not unused. By its number, as the definitions name it.
fn last_in_use(scopes: &[ScopeRow]) -> bool
    ensures { result ≡ in_use (statuses_of scopes.now) (length (statuses_of scopes.now) - 1) }
{
    in_use(scopes, scopes.len().saturating_sub(1))
}

impl Sheet<'_> {
    /// The rows that name values, and the Scopes.
    fn users(&self) -> Users<'_>
        requires { Within (memory self.now) }
        ensures values { result.values.now ≡ (items (memory self.now).values) }
        ensures nodes { result.nodes.now ≡ (items (memory self.now).nodes) }
        ensures scopes { result.scopes.now ≡ (items (memory self.now).scopes) }
    {
        Users {
            values: self.values.put(),
            nodes: self.nodes.put(),
            scopes: self.scopes.put(),
        }
    }

    /// Whether a value that is named has a user or is named twice, or a Scope is not unused: the one to be opened, or the one put last.
    pub(crate) fn used(&self, entry: &Entry) -> bool
        requires { Within (memory self.now) }
        ensures { result ≡ used (rows_of (memory self.now)) (statuses_of (items (memory self.now).scopes)) entry.now }
    {
        match entry {
            Entry::Put(_) | Entry::Close | Entry::List => false,
            Entry::Part(_) => last_in_use(self.scopes.put()),
            Entry::Value(row) => self.users().is_taken(&Value::from(*row).children()),
            Entry::Node(node) => self.users().node_used(node),
        }
    }
}

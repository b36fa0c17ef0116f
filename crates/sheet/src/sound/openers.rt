//! Whether the nodes opened the Scopes that stand, each once.

ghost use Rattle.std.specs.Prelude.{◌≡◌, ℕ, ◌<◌, ◌≤◌, true, false, length, Decides, slice_index_or};
ghost use Rattle.screen.specs.Statuses.{is_standing};
ghost use Rattle.sheet.specs.Planted.{statuses_of};
ghost use Rattle.sheet.specs.Fitting.{Marked, OpenedOnce, marked_by, may_open, status_at};

use crate::rows::ScopeRow;
use crate::sound::nodes::TreeRows;
use crate::table::Limited;
use crate::users::status_at;
use screen::{Node, ScopeId, Status};

/// Marks a Scope that a node opened, and says whether the node may have: the Scope stands and had no mark, or is gone. The mark is written
/// where the answer is found, so that one pass over the nodes does both.
fn mark(scopes: &[ScopeRow], scope: ScopeId, marks: &mut [bool]) -> bool
    requires { (scope < length scopes.now) × (length scopes.now ≤ length marks.old) }
    ensures may { result ≡ may_open (statuses_of scopes.now) scope marks.old }
    ensures marks { marks.new ≡ marked_by (statuses_of scopes.now) scope marks.old }
{
    match status_at(scopes, scope.index()) {
        Status::Unused => false,
        Status::Standing => {
            let fresh = !marks[scope.index()];
            marks[scope.index()] = true;
            fresh
        }
        _ => true,
    }
}

/// Whether each Scope that stands has a mark.
fn all_marked(scopes: &[ScopeRow], marks: &[bool]) -> bool
    requires { length scopes.now ≤ length marks.now }
    ensures { Decides result ((j : ℕ) → j < length scopes.now → is_standing (status_at (statuses_of scopes.now) j) ≡ true → slice_index_or marks.now j false ≡ true) }
{
    scopes.iter().zip(marks).all(|(scope, marked)| Status::from(scope.status) != Status::Standing
        || *marked)
}

impl TreeRows<'_> {
    /// Marks the Scopes that the nodes opened, and says whether each node may have.
    fn mark_all(self, marks: &mut [bool]) -> bool
        requires few { length self.scopes.now ≤ length marks.old }
        requires clear { Marked self.nodes.now (statuses_of self.scopes.now) 0 marks.old }
        ensures yes { result ≡ true → Marked self.entry.nodes.now (statuses_of self.entry.scopes.now) (length self.entry.nodes.now) marks.new }
        ensures no { OpenedOnce self.entry.nodes.now (statuses_of self.entry.scopes.now) → result ≡ true }
    {
        // A loop as in `walk_lists`: the closure of an `all` would write the marks.
        for row in self.nodes {
            if let Node::Scope { scope } = Node::from(row.made) {
                if !mark(self.scopes, scope, marks) {
                    return false;
                }
            }
        }
        true
    }

    /// Whether each Scope that is not gone was opened by one node where it stands, and else by none. The marks are an array for as many Scopes
    /// as there may be: nothing is allocated here.
    pub(crate) fn opened_once(self) -> bool
        requires { length self.scopes.now ≤ 256 }
        ensures { Decides result (OpenedOnce self.entry.nodes.now (statuses_of self.entry.scopes.now)) }
    {
        let mut marks = [false; ScopeRow::LIMIT as usize];
        self.mark_all(&mut marks) && all_marked(self.scopes, &marks)
    }
}

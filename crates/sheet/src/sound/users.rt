//! Whether each value has one user at most.

ghost use Rattle.std.specs.Prelude.{◌≡◌, ◌≤◌, true, false, length, replicate};
ghost use Rattle.screen.specs.Lists.{gathered, present};
ghost use Rattle.screen.specs.Users.{namings};
ghost use Rattle.sheet.specs.Planted.{nodes_of};
ghost use Rattle.sheet.specs.Walks.{fresh, marked};

use crate::rows::NodeRow;
use crate::table::Limited;
use crate::users::Naming;
use screen::{ValueId, ValueRow};

/// Marks the values named here; false at one that is not below `limit` or has a mark. `limit` is how many values are put, which the marks do
/// not say: nothing is allocated here, so that they are an array for as many as there may be.
fn mark_names(names: &[Option<ValueId>], limit: usize, marks: &mut [bool]) -> bool
    requires { limit ≤ length marks.old }
    ensures value { result ≡ fresh limit marks.old (present names.now) }
    ensures after { result ≡ true → marks.new ≡ marked marks.old (present names.now) }
{
    // A loop as in `walk_lists`: the closure of an `all` would write the marks.
    for name in names {
        if let Some(k) = *name {
            let k = k.index();
            if k >= limit || marks[k] {
                return false;
            }
            marks[k] = true;
        }
    }
    true
}

/// Marks the values that the rows name.
fn mark_rows<R: Naming>(rows: &[R], limit: usize, marks: &mut [bool]) -> bool
    requires { limit ≤ length marks.old }
    ensures value { result ≡ fresh limit marks.old (gathered R.Naming.names rows.now) }
    ensures after { result ≡ true → marks.new ≡ marked marks.old (gathered R.Naming.names rows.now) }
{
    // A loop as in `walk_lists`: the closure of an `all` would write the marks.
    for row in rows {
        if !mark_names(&row.names(), limit, marks) {
            return false;
        }
    }
    true
}

/// Whether each value that is named is put, and none is named twice.
pub(crate) fn one_user_each(values: &[ValueRow], nodes: &[NodeRow]) -> bool
    requires { length values.now ≤ 1024 }
    ensures { result ≡ fresh (length values.now) (replicate 1024 false) (namings values.now (nodes_of nodes.now)) }
{
    let mut marks = [false; ValueRow::LIMIT as usize];
    mark_rows(values, values.len(), &mut marks) && mark_rows(nodes, values.len(), &mut marks)
}

//! Whether each row keeps the list of its record, and names rows that are put.

ghost use Rattle.std.specs.Prelude.{◌≡◌, ◌≤◌, ◌&&◌, [], map, length, Decides};
ghost use Rattle.block.specs.declared.record.Record.{Record as Fields};
ghost use Rattle.screen.specs.Lists.{every};
ghost use Rattle.screen.specs.Entries.{entry_of};
ghost use Rattle.screen.specs.Records.{value_record};
ghost use Rattle.screen.specs.WellFormed.{kept, is_listed, value_kept, values_kept};
ghost use Rattle.sheet.specs.Tables.{items, memory};
ghost use Rattle.sheet.specs.Planted.{statuses_of};
ghost use Rattle.sheet.specs.Holds.{rows_of, Within};
ghost use Rattle.sheet.specs.Links.{no_record};
ghost use Rattle.sheet.specs.NodeRows.{node_row_kept, NodesKept};

use crate::named::Named;
use crate::rows::NodeRow;
use crate::sheet::Sheet;
use block::Record;
use screen::{Entry, Row, Value, ValueRow};

/// Whether a record's fields keep their list.
pub(crate) fn is_listed(record: Record) -> bool
    ensures { result ≡ is_listed (entry_of «record») }
{
    Entry::try_from(record).is_ok()
}

/// Whether a record's fields keep their list, and the rows that it names are put.
fn is_kept(s: &Sheet<'_>, record: Record) -> bool
    requires { Within (memory s.now) }
    ensures { result ≡ kept (rows_of (memory s.now)) (statuses_of (items (memory s.now).scopes)) «record» }
{
    match Entry::try_from(record) {
        Ok(entry) => s.named(&entry),
        Err(_) => false,
    }
}

/// Whether each row keeps the list of its record, and names rows that are put.
pub(crate) fn rows_kept<R: Row>(s: &Sheet<'_>, rows: &[R]) -> bool
    requires { Within (memory s.now) }
    ensures { result ≡ every (λ x. kept (rows_of (memory s.now)) (statuses_of (items (memory s.now).scopes)) (R.made x)) rows.now }
{
    rows.iter().all(
        |row|
            requires { Within (memory s.now) }
        { is_kept(s, row.record()) },
    )
}

impl Named<'_> {
    /// Whether a value's fields keep their list, and what it names is put.
    fn value_kept(self, row: &ValueRow) -> bool
        ensures { result ≡ value_kept self.entry.identifiers.now self.entry.reads.now self.entry.values.now row.now }
    {
        is_listed(row.record()) && self.value_named(&Value::from(*row))
    }

    /// The same of each value, its children among the values before it.
    pub(crate) fn values_kept(self) -> bool
        ensures { result ≡ values_kept self.entry.identifiers.now self.entry.reads.now [] self.entry.values.now }
    {
        self.values.iter().enumerate().all(|(i, row)| {
            let before = Named {
                values: &self.values[..i],
                ..self
            };
            before.value_kept(row)
        })
    }

    /// Whether a node's record made a node that names rows that are put.
    fn node_kept(self, row: &NodeRow) -> bool
        ensures { result ≡ node_row_kept self.entry.identifiers.now self.entry.values.now (statuses_of self.entry.scopes.now) row.now }
    {
        match Entry::try_from(row.made) {
            Ok(Entry::Node(node)) => self.node_named(&node),
            _ => false,
        }
    }

    /// Whether the body's record is all zeros, and every other node is as it should be by itself.
    pub(crate) fn nodes_kept(self, nodes: &[NodeRow]) -> bool
        ensures { Decides result (NodesKept self.entry.identifiers.now self.entry.values.now (statuses_of self.entry.scopes.now) nodes.now) }
    {
        let Some((body, others)) = nodes.split_first() else {
            return false;
        };
        body.made == Record::default() && others.iter().all(|row| self.node_kept(row))
    }
}

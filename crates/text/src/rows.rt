//! Records and the rows that their fields name.

ghost use Rattle.std.specs.Prelude.{◌≡◌, ◌==◌, cond, Some, None};
ghost use Rattle.std.specs.Option.{unwrap_or};
ghost use Rattle.block.specs.declared.record.Record.{Record};

use block::Record;

/// The number that names no row: a record's fields are plain numbers. Crate `screen` has the same constant, and `optional` for `row_of`; the
/// text form stands on blocks alone.
const NONE: u32 = u32::MAX;

/// A record of this tag with no field.
pub fn blank(tag: u8) -> Record
    ensures { result ≡ record { tag = tag; p = 0; q = 0; r = 0; s = 0; t = 0 } }
{
    Record {
        tag,
        ..Record::default()
    }
}

/// The row that a field names.
pub fn row_of(field: u32) -> Option<u32>
    ensures { result ≡ cond (field == 4294967295) None (Some field) }
{
    (field != NONE).then_some(field)
}

/// The field that names this row.
pub fn field_of(row: Option<u32>) -> u32
    ensures { result ≡ unwrap_or row 4294967295 }
{
    row.unwrap_or(NONE)
}

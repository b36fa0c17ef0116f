//! How deep values nest.

ghost use Rattle.std.specs.Prelude.{◌≡◌, ◌≤◌, [], ◌∷◌, true, length, take, nat_le, slice_index};
ghost use Rattle.screen.specs.Lists.{every, present};
ghost use Rattle.screen.specs.Levels.{highest, levels_of};
ghost use Rattle.screen.specs.Refused.{deep};
ghost use Rattle.sheet.specs.Tables.{items, memory};
ghost use Rattle.sheet.specs.Holds.{rows_of, Within};

use crate::sheet::Sheet;
use crate::table::Limited;
use screen::{Entry, Value, ValueId, ValueRow};

/// The deepest that values may nest.
const MOST: u8 = 64;
/// The most values that may be put.
pub(crate) const VALUES: usize = ValueRow::LIMIT as usize;

/// The level of value k. 0 is no level, and so the level of a value that is not there, as the definitions have it.
fn level_at(levels: &[u8], k: ValueId) -> u8
    ensures { result ≡ slice_index levels.now k }
{
    levels.get(k.index()).copied().unwrap_or(0)
}

/// The level of the value named here, or 0 where none is.
fn level_of(levels: &[u8], name: Option<ValueId>) -> u8
    ensures { result ≡ highest levels.now (present (name ∷ [])) }
{
    name.map_or(0, |k| level_at(levels, k))
}

/// The highest level of the values named here, of which some are none.
fn highest(levels: &[u8], names: &[Option<ValueId>]) -> u8
    ensures { result ≡ highest levels.now (present names.now) }
{
    names
        .iter()
        .fold(0, |most, name| most.max(level_of(levels, *name)))
}

/// Works out the level of each value; false where one passes 64. The levels are the caller's, since nothing is allocated here.
pub(crate) fn fill_levels(values: &[ValueRow], levels: &mut [u8; VALUES]) -> bool
    requires { length values.now ≤ 1024 }
    ensures value { result ≡ every (λ n. nat_le n 64) (levels_of values.now) }
    ensures levels { result ≡ true → take (length values.now) levels.new ≡ levels_of values.now }
{
    // each level is worked out from those written before it, which no chain reads
    for (i, row) in values.iter().enumerate() {
        let below = highest(&levels[0..i], &Value::from(*row).children());
        if below >= MOST {
            return false;
        }
        levels[i] = below + 1;
    }
    true
}

impl Sheet<'_> {
    /// Whether a new value's level would pass 64.
    pub(crate) fn deep(&self, entry: &Entry) -> bool
        requires within { Within (memory self.now) }
        requires few { length (items (memory self.now).values) ≤ 1024 }
        requires levels { every (λ n. nat_le n 64) (levels_of (items (memory self.now).values)) ≡ true }
        ensures { result ≡ deep (rows_of (memory self.now)) entry.now }
    {
        let Entry::Value(row) = *entry else {
            return false;
        };
        let values = self.values.put();
        let mut levels = [0; VALUES];
        // It cannot fail: no value that is put passes 64.
        let _ = fill_levels(values, &mut levels);
        highest(&levels[0..values.len()], &Value::from(row).children()) >= MOST
    }
}

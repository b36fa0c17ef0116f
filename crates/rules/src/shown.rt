//! What the rules make of a repeated entry, and of the order of the two lists. Each function asks the rule itself, so its answer is shown twice: of the meaning (`stands`) and of the code (`value`).
//!
//! The fault that this is about: the dependency list of a Scope held an entry twice, and passed under the list rule for one that also names the stitch count.
//! The two Scopes were taken for one, the panel kept an old number on its screen, and a cap was scrapped.

ghost use Rattle.std.specs.Prelude.{◌≡◌, true, [], ◌∷◌};
ghost use Rattle.screen.specs.Alike.{bits_alike, alike};
ghost use Rattle.rules.specs.Named.{dep_in};
ghost use Rattle.rules.specs.Shown.{RepeatPasses, RepeatSeen, RepeatSeenTurned, Symmetric, NotSymmetric};

use crate::both_ways::BothWaysRule;
use crate::list::ListRule;
use crate::read::Entries;
use crate::rule::Rule;
use screen::{DependencyRow, IdentifierRow};

/// Whether an entry that stands twice passes under a rule for itself and another.
fn repeat_passes<R: Rule>(
    rule: &R,
    entries: Entries<'_>,
    x: DependencyRow,
    y: DependencyRow,
) -> bool
    ensures { result ≡ (R.meaning rule.now).same (dep_in entries.entry x ∷ dep_in entries.entry x ∷ []) (dep_in entries.entry x ∷ dep_in entries.entry y ∷ []) }
{
    rule.same(entries, &[x, x], &[x, y])
}

/// The stitch-count fault: under the list rule x twice passes for x and y, whatever y is.
pub fn repeat_fools_the_list_rule(entries: Entries<'_>, x: DependencyRow, y: DependencyRow) -> bool
    ensures stands { RepeatPasses }
    ensures value { result ≡ true }
{
    repeat_passes(&ListRule, entries, x, y)
}

/// The same two lists both ways: they pass only where y is alike to x.
pub fn both_ways_sees_the_repeat(entries: Entries<'_>, x: DependencyRow, y: DependencyRow) -> bool
    ensures stands { RepeatSeen }
    ensures value { result ≡ alike bits_alike (dep_in entries.entry y) (dep_in entries.entry x) }
{
    repeat_passes(&BothWaysRule, entries, x, y)
}

/// The two lists the other way round under the list rule: they pass only where y is alike to x.
pub fn list_rule_sees_it_turned(entries: Entries<'_>, x: DependencyRow, y: DependencyRow) -> bool
    ensures stands { RepeatSeenTurned }
    ensures value { result ≡ alike bits_alike (dep_in entries.entry y) (dep_in entries.entry x) }
{
    ListRule.same(entries, &[x, y], &[x, x])
}

/// Both ways it does not matter which list comes first.
pub fn both_ways_is_symmetric(
    entries: Entries<'_>,
    a: &[DependencyRow],
    b: &[DependencyRow],
) -> bool
    ensures stands { Symmetric }
    ensures value { result ≡ true }
{
    BothWaysRule.same(entries, a, b) == BothWaysRule.same(entries, b, a)
}

/// Under the list rule it does: declarations 1 twice pass for 1 and 2, and not the other way round.
#[tactic(auto, using(crate::proofs::Repeats::not_symmetric))]
pub fn list_rule_is_not_symmetric() -> bool
    ensures stands { NotSymmetric }
    ensures value { result ≡ true }
{
    let identifiers = [
        IdentifierRow {
            declaration: 1,
            ..IdentifierRow::default()
        },
        IdentifierRow {
            declaration: 2,
            ..IdentifierRow::default()
        },
    ];
    let colour = DependencyRow::default();
    let stitches = DependencyRow {
        identifier: 1,
        ..DependencyRow::default()
    };
    let entries = Entries {
        identifiers: &identifiers,
        paths: &[],
    };
    let twice = [colour, colour];
    let both = [colour, stitches];
    ListRule.same(entries, &twice, &both) && !ListRule.same(entries, &both, &twice)
}

//! The both-ways rule: each entry of either list is alike to one of the other, however often it stands there.

ghost use Rattle.screen.specs.Alike.{bits_alike};
ghost use Rattle.screen.specs.Meanings.{both_ways_meaning};
ghost use Rattle.screen.specs.Reflexive.{both_ways_reflexive};

use crate::alike::{Alike, has_same_bits, is_covered};
use crate::lasting::is_always_invalidating_type;
use crate::read::Entries;
use crate::rule::Rule;
use screen::{DependencyRow, PathRow};

/// The both-ways rule.
#[derive(Clone, Copy, Debug, PartialEq, Eq)]
pub struct BothWaysRule;

impl Alike for BothWaysRule {
    ghost like = { λ _. bits_alike };

    /// Kind, 64 bits and optional mark.
    fn is_like(&self, p: PathRow, q: PathRow) -> bool {
        has_same_bits(p, q)
    }
}

impl Rule for BothWaysRule {
    ghost meaning = { λ _. both_ways_meaning };

    ghost reflexive = { λ s l. both_ways_reflexive l };

    fn same(&self, entries: Entries<'_>, a: &[DependencyRow], b: &[DependencyRow]) -> bool {
        is_covered(self, entries, a, b) && is_covered(self, entries, b, a)
    }

    fn lasting(&self, kind: u8, shape: u32) -> bool {
        is_always_invalidating_type(kind, shape)
    }
}

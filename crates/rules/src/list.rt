//! The list rule, as the original has it: equal lengths, and each entry of the first list is alike to one of the second.

ghost use Rattle.screen.specs.Alike.{bits_alike};
ghost use Rattle.screen.specs.Meanings.{list_meaning};
ghost use Rattle.screen.specs.Reflexive.{list_reflexive};

use crate::alike::{Alike, has_same_bits, is_covered};
use crate::lasting::is_always_invalidating_type;
use crate::read::Entries;
use crate::rule::Rule;
use screen::{DependencyRow, PathRow};

/// The list rule.
#[derive(Clone, Copy, Debug, PartialEq, Eq)]
pub struct ListRule;

impl Alike for ListRule {
    ghost like = { λ _. bits_alike };

    /// Kind, 64 bits and optional mark.
    fn is_like(&self, p: PathRow, q: PathRow) -> bool {
        has_same_bits(p, q)
    }
}

impl Rule for ListRule {
    ghost meaning = { λ _. list_meaning };

    ghost reflexive = { λ s l. list_reflexive l };

    fn same(&self, entries: Entries<'_>, a: &[DependencyRow], b: &[DependencyRow]) -> bool {
        a.len() == b.len() && is_covered(self, entries, a, b)
    }

    fn lasting(&self, kind: u8, shape: u32) -> bool {
        is_always_invalidating_type(kind, shape)
    }
}

//! What any rule is: two questions, their meaning, and one law. Asking changes nothing.

ghost use Rattle.std.specs.Prelude.{◌≡◌, true, List};
ghost use Rattle.screen.specs.Rules.{Dep, Meaning};
ghost use Rattle.rules.specs.Named.{deps_in};

use crate::read::Entries;
use screen::DependencyRow;

/// An invalidation rule. `same` and `lasting` answer just what the rule means, always.
pub trait Rule {
    // What each rule must give: its two answers, and that they keep the law.
    ghost meaning: { Self → Meaning };

    /// Whether two dependency lists are the same. Their rows name identifiers and path entries.
    fn same(&self, entries: Entries<'_>, a: &[DependencyRow], b: &[DependencyRow]) -> bool
        ensures { result ≡ (meaning self.now).same (deps_in entries.entry a.now) (deps_in entries.entry b.now) };

    /// Whether a type, by its kind and its shape, is lasting. Both are numbers, those of a lent row: a host may hand over any, and each has an answer.
    fn lasting(&self, kind: u8, shape: u32) -> bool
        ensures { result ≡ (meaning self.now).lasting kind shape };

    // Each list is the same as itself: what code over any rule may use.
    ghost reflexive: { (s : Self) (l : List Dep) → (meaning s).same l l ≡ true };
}

/// A list against itself: the same, by the law of every rule.
pub fn same_as_itself<R: Rule>(rule: &R, entries: Entries<'_>, list: &[DependencyRow]) -> bool
    ensures { result ≡ true }
{
    rule.same(entries, list, list)
}

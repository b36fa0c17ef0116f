//! Which entries are alike. A rule says it of two path entries; the scans over paths and lists are written once, for every rule.
//! The rule and the entries are two parameters: a struct of them would have the rule's type as its parameter, and save no word.

ghost use Rattle.std.specs.Prelude.{◌≡◌, Bool, zip};
ghost use Rattle.std.specs.List.{list_all};
ghost use Rattle.screen.specs.declared.rows.PathRow.{PathRow};
ghost use Rattle.screen.specs.Alike.{bits_alike, paths_alike, alike, found, covered};
ghost use Rattle.rules.specs.Named.{dep_in, deps_in};

use crate::read::Entries;
use screen::{DependencyRow, PathRow};

/// What a rule says of two path entries.
pub trait Alike {
    ghost like: { Self → PathRow → PathRow → Bool };

    /// Whether two path entries are alike under this rule.
    fn is_like(&self, p: PathRow, q: PathRow) -> bool
        ensures { result ≡ like self.now p q };
}

/// Whether two path entries agree in kind, 64 bits and optional mark. Each rule here says so of them; another may say something else, so it is no part of the trait.
pub fn has_same_bits(p: PathRow, q: PathRow) -> bool
    ensures { result ≡ bits_alike p q }
{
    p == q
}

/// Whether each two entries that stand at one place of the two paths are alike.
fn are_alike_entries<R: Alike>(rule: &R, a: &[PathRow], b: &[PathRow]) -> bool
    ensures { result ≡ list_all (λ t. R.like rule.now t.0 t.1) (zip a.now b.now) }
{
    a.iter().zip(b).all(|(p, q)| rule.is_like(*p, *q))
}

/// Whether two paths are alike, entry for entry.
#[tactic(auto, using(crate::proofs::Likes::paths_zip))]
fn are_alike_paths<R: Alike>(rule: &R, a: &[PathRow], b: &[PathRow]) -> bool
    ensures { result ≡ paths_alike (R.like rule.now) a.now b.now }
{
    a.len() == b.len() && are_alike_entries(rule, a, b)
}

/// Whether two rows stand for alike entries: one declaration, and alike paths.
fn are_alike<R: Alike>(rule: &R, entries: Entries<'_>, x: &DependencyRow, y: &DependencyRow) -> bool
    ensures { result ≡ alike (R.like rule.now) (dep_in entries.entry x.now) (dep_in entries.entry y.now) }
{
    entries.declaration_of(x.identifier.into()) == entries.declaration_of(y.identifier.into())
        && are_alike_paths(rule, entries.path_of(x), entries.path_of(y))
}

/// Whether x is alike to one of the list.
fn is_found<R: Alike>(
    rule: &R,
    entries: Entries<'_>,
    x: &DependencyRow,
    list: &[DependencyRow],
) -> bool
    ensures { result ≡ found (R.like rule.now) (dep_in entries.entry x.now) (deps_in entries.entry list.now) }
{
    list.iter().any(|y| are_alike(rule, entries, x, y))
}

/// Whether each entry of the first list is alike to one of the second.
pub fn is_covered<R: Alike>(
    rule: &R,
    entries: Entries<'_>,
    a: &[DependencyRow],
    b: &[DependencyRow],
) -> bool
    ensures { result ≡ covered (R.like rule.now) (deps_in entries.entry a.now) (deps_in entries.entry b.now) }
{
    a.iter().all(|x| is_found(rule, entries, x, b))
}

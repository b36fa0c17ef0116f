//! Says whether the Scope rows, and the lists that are linked through them and the declarations, are as they should be.

ghost use Rattle.std.specs.Prelude.{◌≡◌, ℕ, ◌≤◌, Bool, true, List, length, Decides, nat_le};
ghost use Rattle.std.specs.List.{list_all, zip};
ghost use Rattle.screen.specs.Lists.{every};
ghost use Rattle.screen.specs.State.{Scope};
ghost use Rattle.screen.specs.WellFormed.{ScopesKept, spans_to};
ghost use Rattle.sheet.specs.Chains.{Chained, no_declaration, no_scope};
ghost use Rattle.sheet.specs.Walks.{Walked, WalkedAll, link_at, Loose, JoinedMarked, row_listed, begins};
ghost use Rattle.sheet.specs.declared.rows.ScopeRow.{ScopeRow};

use crate::rows::{DeclarationRow, ScopeRow};
use crate::table::Limited;
use screen::{NONE, Status};

/// The number of a Scope that is joined to another. Here a row's number is judged before it is a `Status`: `Status::from` reads each number
/// above 3 as flattened.
const JOINED: u8 = Status::Joined as u8;

/// The number of a Scope that its content replaced: no status has a greater one.
const FLATTENED: u8 = Status::Flattened as u8;

/// A row of the lists that Scopes have: a Scope names the first row, and each row the next.
pub trait Linked: Copy {
    // the row that stands for what is not there
    ghost blank: { Self };

    // the next row's number
    ghost link: { Self → ℕ };

    // the number of a Scope's first row
    ghost head: { ScopeRow → ℕ };

    /// The next row of the list.
    fn next(&self) -> u32
        ensures { result ≡ link self.now };

    /// The first row of a Scope's list.
    fn first(scope: &ScopeRow) -> u32
        ensures { result ≡ head scope.now };
}

impl Linked for DeclarationRow {
    ghost blank = { no_declaration };

    ghost link = { λ d. d.next };

    ghost head = { λ s. s.first };

    fn next(&self) -> u32 {
        self.next
    }

    fn first(scope: &ScopeRow) -> u32 {
        scope.first
    }
}

impl Linked for ScopeRow {
    ghost blank = { no_scope };

    ghost link = { λ s. s.next };

    ghost head = { λ s. s.merged };

    fn next(&self) -> u32 {
        self.next
    }

    fn first(scope: &ScopeRow) -> u32 {
        scope.merged
    }
}

/// Follows the list from `first` and marks each row. It fails where a link leads out of the rows, or to a marked row: a cycle, or a row of two lists.
fn walk_list<R: Linked>(rows: &[R], first: u32, marks: &mut [bool]) -> bool
    requires room { length rows.now ≤ length marks.old }
    requires few { length rows.now ≤ 1024 }
    ensures yes { result ≡ true → Walked (link_at R.Linked.link R.Linked.blank rows.now) (length rows.now) first marks.old marks.new }
    ensures no { (left : List Bool) → Walked (link_at R.Linked.link R.Linked.blank rows.now) (length rows.now) first marks.old left → (result ≡ true) × (left ≡ marks.new) }
{
    // The list goes by its rows' links, which no slice lists, and each mark is written before the next step.
    let mut at = first;
    while at != NONE {
        let k = at as usize;
        if k >= rows.len() || marks[k] {
            return false;
        }
        marks[k] = true;
        at = rows[k].next();
    }
    true
}

/// Walks each Scope's list. The walks share their marks, so no row is in two lists. Marks and rows are two slices, since the marks are of
/// whichever rows are walked.
fn walk_lists<R: Linked>(scopes: &[ScopeRow], rows: &[R], marks: &mut [bool]) -> bool
    requires room { length rows.now ≤ length marks.old }
    requires few { length rows.now ≤ 1024 }
    ensures yes { result ≡ true → WalkedAll (link_at R.Linked.link R.Linked.blank rows.now) R.Linked.head (length rows.now) scopes.now marks.old marks.new }
    ensures no { (left : List Bool) → WalkedAll (link_at R.Linked.link R.Linked.blank rows.now) R.Linked.head (length rows.now) scopes.now marks.old left → (result ≡ true) × (left ≡ marks.new) }
{
    // Tried as `all`: its closure writes the marks, and what it asks of them and both clauses stay open.
    for scope in scopes {
        if !walk_list(rows, R::first(scope), marks) {
            return false;
        }
    }
    true
}

/// Whether each row that is in no list has no next row.
fn loose_end<R: Linked>(rows: &[R], marks: &[bool]) -> bool
    requires { length rows.now ≤ length marks.now }
    ensures { Decides result (Loose (link_at R.Linked.link R.Linked.blank rows.now) (length rows.now) marks.now) }
{
    rows.iter()
        .zip(marks)
        .all(|(row, marked)| *marked || row.next() == NONE)
}

/// Whether the Scopes in merged lists are those that are joined.
fn joined_marked(scopes: &[ScopeRow], marks: &[bool]) -> bool
    requires { length scopes.now ≤ length marks.now }
    ensures { Decides result (JoinedMarked scopes.now marks.now) }
{
    scopes
        .iter()
        .zip(marks)
        .all(|(scope, marked)| *marked == (scope.status == JOINED))
}

/// Whether a Scope row's plain fields keep their list.
fn row_listed(scope: &ScopeRow) -> bool
    ensures { result ≡ row_listed scope.now }
{
    scope.status <= FLATTENED && scope.reassigns <= 1 && scope.start < NONE && scope.end < NONE
}

/// The same of every Scope row.
fn rows_listed(scopes: &[ScopeRow]) -> bool
    ensures { result ≡ every row_listed scopes.now }
{
    scopes.iter().all(row_listed)
}

/// Whether no Scope's dependencies begin after those of the other in its place.
fn in_order(scopes: &[ScopeRow], others: &[ScopeRow]) -> bool
    ensures { result ≡ list_all (λ t. nat_le t.0.begin t.1.begin) (zip scopes.now others.now) }
{
    scopes
        .iter()
        .zip(others)
        .all(|(scope, other)| scope.begin <= other.begin)
}

/// Whether the Scopes' dependencies lie one Scope's after the other's, from 0 up to the last.
fn begins_rise(scopes: &[ScopeRow], dependencies: u32) -> bool
    ensures { result ≡ spans_to (begins scopes.now) dependencies }
{
    if scopes.is_empty() {
        return dependencies == 0;
    }
    scopes[0].begin == 0
        && scopes[scopes.len() - 1].begin <= dependencies
        && in_order(scopes, &scopes[1..])
}

/// Whether the Scope rows and the lists linked through them and the declarations are as they should be. The marks are arrays for as many rows
/// as there may be: nothing is allocated here.
pub(crate) fn scopes_sound(
    scopes: &[ScopeRow],
    declarations: &[DeclarationRow],
    dependencies: u32,
) -> bool
    requires { (length scopes.now ≤ 256) × (length declarations.now ≤ 1024) }
    ensures { Decides result ((ss : List Scope) × Chained scopes.now declarations.now ss × ScopesKept ss dependencies (length declarations.now)) }
{
    if !rows_listed(scopes) || !begins_rise(scopes, dependencies) {
        return false;
    }
    let mut declared = [false; DeclarationRow::LIMIT as usize];
    if !walk_lists(scopes, declarations, &mut declared) || !loose_end(declarations, &declared) {
        return false;
    }
    let mut merged = [false; ScopeRow::LIMIT as usize];
    if !walk_lists(scopes, scopes, &mut merged) || !loose_end(scopes, &merged) {
        return false;
    }
    joined_marked(scopes, &merged)
}

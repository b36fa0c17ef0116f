//! Whether what a host lends is sound.

ghost use Rattle.std.specs.Prelude.{◌≡◌, ◌≤◌, false, [], map, length, replicate, Decides, nat_le};
ghost use Rattle.screen.specs.Lists.{every};
ghost use Rattle.screen.specs.Records.{declaration_record};
ghost use Rattle.screen.specs.Levels.{levels_of};
ghost use Rattle.screen.specs.Users.{namings};
ghost use Rattle.screen.specs.WellFormed.{kept, values_kept};
ghost use Rattle.sheet.specs.Tables.{items, memory};
ghost use Rattle.sheet.specs.Planted.{nodes_of, statuses_of};
ghost use Rattle.sheet.specs.Holds.{declaration_of, rows_of, Within, Sound};
ghost use Rattle.sheet.specs.Kept.{Long};
ghost use Rattle.sheet.specs.NodeRows.{NodesKept};
ghost use Rattle.sheet.specs.Walks.{fresh};
ghost use Rattle.sheet.specs.Examined.{Fitted, front_kept, middle_kept, shapes_kept, RowsSound, ScopesSound, TreeSound};

mod nodes;
mod open;
mod openers;
mod rows;
mod scopes;
mod tree;
mod users;
mod walk;

use crate::levels::{VALUES, fill_levels};
use crate::sheet::Sheet;
use nodes::TreeRows;
use rows::rows_kept;
use scopes::scopes_sound;
use users::one_user_each;

impl Sheet<'_> {
    /// Whether no table counts more rows than its limit.
    fn counts_fit(&self) -> bool
        ensures { Decides result (Fitted (memory self.now)) }
    {
        self.types.is_fitting()
            && self.identifiers.is_fitting()
            && self.paths.is_fitting()
            && self.scopes.is_fitting()
            && self.dependencies.is_fitting()
            && self.declarations.is_fitting()
            && self.reads.is_fitting()
            && self.values.is_fitting()
            && self.shapes.is_fitting()
            && self.nodes.is_fitting()
    }

    /// Whether each declaration names identifiers that are put. This and the tests below hand rows on, and each states its fact of the memory,
    /// of which the examination's answer is made.
    fn declarations_kept(&self) -> bool
        requires { Within (memory self.now) }
        ensures { result ≡ every (λ d. kept (rows_of (memory self.now)) (statuses_of (items (memory self.now).scopes)) (declaration_record d.key d.declared)) (map declaration_of (items (memory self.now).declarations)) }
    {
        rows_kept(self, self.declarations.put())
    }

    /// Whether the types, identifiers and path entries keep their records' lists and name rows that are put.
    fn front_rows_kept(&self) -> bool
        requires { Within (memory self.now) }
        ensures { result ≡ front_kept (rows_of (memory self.now)) (statuses_of (items (memory self.now).scopes)) }
    {
        rows_kept(self, self.types.put())
            && rows_kept(self, self.identifiers.put())
            && rows_kept(self, self.paths.put())
    }

    /// The same of dependencies, declarations and reads.
    fn middle_rows_kept(&self) -> bool
        requires { Within (memory self.now) }
        ensures { result ≡ middle_kept (rows_of (memory self.now)) (statuses_of (items (memory self.now).scopes)) }
    {
        rows_kept(self, self.dependencies.put())
            && self.declarations_kept()
            && rows_kept(self, self.reads.put())
    }

    /// The same of own shapes.
    fn shapes_kept(&self) -> bool
        requires { Within (memory self.now) }
        ensures { result ≡ shapes_kept (rows_of (memory self.now)) (statuses_of (items (memory self.now).scopes)) }
    {
        rows_kept(self, self.shapes.put())
    }

    /// Whether the values' rows keep their lists and name rows that are put, their children among the values before them.
    fn value_rows_kept(&self) -> bool
        requires { Within (memory self.now) }
        ensures { result ≡ values_kept (items (memory self.now).identifiers) (items (memory self.now).reads) [] (items (memory self.now).values) }
    {
        self.named_rows().values_kept()
    }

    /// Whether no value nests deeper than 64 levels.
    fn levels_fit(&self) -> bool
        requires within { Within (memory self.now) }
        requires few { length (items (memory self.now).values) ≤ 1024 }
        ensures { result ≡ every (λ n. nat_le n 64) (levels_of (items (memory self.now).values)) }
    {
        let mut levels = [0; VALUES];
        fill_levels(self.values.put(), &mut levels)
    }

    /// Whether each node's row is as it should be by itself.
    fn node_rows_kept(&self) -> bool
        requires { Within (memory self.now) }
        ensures { Decides result (NodesKept (items (memory self.now).identifiers) (items (memory self.now).values) (statuses_of (items (memory self.now).scopes)) (items (memory self.now).nodes)) }
    {
        self.named_rows().nodes_kept(self.nodes.put())
    }

    /// Whether each value that is named is put, and has one user.
    fn users_apart(&self) -> bool
        requires within { Within (memory self.now) }
        requires few { length (items (memory self.now).values) ≤ 1024 }
        ensures { result ≡ fresh (length (items (memory self.now).values)) (replicate 1024 false) (namings (items (memory self.now).values) (nodes_of (items (memory self.now).nodes))) }
    {
        one_user_each(self.values.put(), self.nodes.put())
    }

    /// Whether the Scopes' rows and their lists are as they should be.
    fn scopes_hold(&self) -> bool
        requires within { Within (memory self.now) }
        requires fitted { Fitted (memory self.now) }
        ensures { Decides result (ScopesSound (memory self.now)) }
    {
        scopes_sound(
            self.scopes.put(),
            self.declarations.put(),
            self.dependencies.count,
        )
    }

    /// Whether the nodes' rows hold a tree as they should.
    fn tree_holds(&self) -> bool
        requires within { Within (memory self.now) }
        requires fitted { Fitted (memory self.now) }
        requires rows { RowsSound (memory self.now) }
        ensures { Decides result (TreeSound (memory self.now)) }
    {
        let tree = TreeRows {
            nodes: self.nodes.put(),
            scopes: self.scopes.put(),
        };
        tree.tree_sound(self.innermost)
    }

    /// Whether the tables are sound. They are gone through in the order of their records' tags, the nodes last.
    pub(crate) fn is_sound(&self) -> bool
        requires { Long (memory self.now) }
        ensures { Decides result (Sound (memory self.now)) }
    {
        self.counts_fit()
            && self.front_rows_kept()
            && self.scopes_hold()
            && self.middle_rows_kept()
            && self.value_rows_kept()
            && self.levels_fit()
            && self.shapes_kept()
            && self.node_rows_kept()
            && self.users_apart()
            && self.tree_holds()
    }
}

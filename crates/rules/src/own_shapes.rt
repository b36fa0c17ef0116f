//! A layer over any rule: an Object of a shape of the host's own is lasting too, and the rest is the rule's below.

ghost use Rattle.std.specs.Prelude.{◌≡◌};
ghost use Rattle.rules.specs.Kept.{kept_in, shapes_of};
ghost use Rattle.screen.specs.Meanings.{own_meaning};
ghost use Rattle.std.proofs.Common.{rules};

use crate::lasting::is_object;
use crate::read::Entries;
use crate::rule::Rule;
use crate::shapes::Shapes;
use screen::{DependencyRow, ShapeRow};

/// A rule, and the host's own shapes over it.
#[derive(Clone, Copy, Debug, PartialEq, Eq)]
pub struct OwnShapes<R> {
    pub below: R,
    pub shapes: Shapes,
}

impl<R> OwnShapes<R> {
    /// The layer with the shapes of a sheet's rows.
    pub fn new(rows: &[ShapeRow], below: R) -> OwnShapes<R>
        ensures shapes { kept_in result.shapes ≡ shapes_of rows.now }
        ensures below { result.below ≡ below }
    {
        OwnShapes {
            below,
            shapes: Shapes::from(rows),
        }
    }
}

impl<R: Rule> Rule for OwnShapes<R> {
    ghost meaning = { λ s. own_meaning (kept_in s.shapes) (R.Rule.meaning s.below) };

    ghost reflexive = { Prim.search rules };

    fn same(&self, entries: Entries<'_>, a: &[DependencyRow], b: &[DependencyRow]) -> bool {
        self.below.same(entries, a, b)
    }

    fn lasting(&self, kind: u8, shape: u32) -> bool {
        is_object(kind) && self.shapes.has(shape) || self.below.lasting(kind, shape)
    }
}

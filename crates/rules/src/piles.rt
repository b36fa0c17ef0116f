//! Layers over rules, and layers over layers: what is proved of any rule holds of them all.

ghost use Rattle.std.specs.Prelude.{◌≡◌, true, ◌||◌};
ghost use Rattle.rules.specs.Kept.{shapes_of};
ghost use Rattle.screen.specs.Lasting.{lasting_built_in, own_object};

use crate::both_ways::BothWaysRule;
use crate::list::ListRule;
use crate::own_shapes::OwnShapes;
use crate::read::Entries;
use crate::rule::{Rule, same_as_itself};
use screen::{DependencyRow, ShapeRow};

/// Own shapes over the both-ways rule keep the law.
pub fn layer_keeps_the_law(
    shapes: &[ShapeRow],
    entries: Entries<'_>,
    list: &[DependencyRow],
) -> bool
    ensures { result ≡ true }
{
    let layer = OwnShapes::new(shapes, BothWaysRule);
    same_as_itself(&layer, entries, list)
}

/// So do own shapes over own shapes over the list rule.
pub fn pile_keeps_the_law(
    upper: &[ShapeRow],
    lower: &[ShapeRow],
    entries: Entries<'_>,
    list: &[DependencyRow],
) -> bool
    ensures { result ≡ true }
{
    let pile = OwnShapes::new(upper, OwnShapes::new(lower, ListRule));
    same_as_itself(&pile, entries, list)
}

/// Such a pile's lasting types: an Object of a shape of either layer, and what lasts below. As for any rule, the kind is any number that a host may lend.
pub fn pile_lasting(upper: &[ShapeRow], lower: &[ShapeRow], kind: u8, shape: u32) -> bool
    ensures { result ≡ (own_object (shapes_of upper.now) kind shape || (own_object (shapes_of lower.now) kind shape || lasting_built_in kind shape)) }
{
    OwnShapes::new(upper, OwnShapes::new(lower, ListRule)).lasting(kind, shape)
}

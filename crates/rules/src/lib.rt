//! Invalidation rules: are two dependency lists the same, and is a type lasting?

#![tactic(auto)]

mod alike;
mod both_ways;
mod lasting;
mod list;
mod own_shapes;
mod piles;
mod read;
mod rule;
mod shapes;
mod shown;
#[cfg(test)]
mod tests;

pub use both_ways::BothWaysRule;
pub use list::ListRule;
pub use own_shapes::OwnShapes;
pub use piles::{layer_keeps_the_law, pile_keeps_the_law, pile_lasting};
pub use read::Entries;
pub use rule::{Rule, same_as_itself};
pub use shapes::Shapes;
pub use shown::{
    both_ways_is_symmetric, both_ways_sees_the_repeat, list_rule_is_not_symmetric,
    list_rule_sees_it_turned, repeat_fools_the_list_rule,
};

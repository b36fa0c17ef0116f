//! A sheet in memory that a host lends: its tables, what makes them sound, and the records on them.

#![tactic(auto)]

mod levels;
mod list;
mod named;
mod refusals;
mod rows;
mod sheet;
mod sound;
mod table;
mod take;
mod tree;
mod users;
mod write;

pub use rows::{DeclarationRow, NodeRow, ScopeRow};
pub use sheet::{Sheet, Work};
pub use table::{Limited, Table};

//! What a sheet means: its rows, its nodes, what a record asks for, and what may be answered.

#![tactic(auto)]

mod answer;
mod entry;
mod id;
mod kinds;
mod laws;
mod node;
mod rows;
mod scope;
mod value;

pub use answer::{Answer, Line, Refusal};
pub use entry::{Entry, Part, Put};
pub use id::{
    Id, IdentifierId, IdentifierTable, NodeId, NodeTable, ReadId, ReadTable, ScopeId, ScopeTable,
    TypeId, TypeTable, ValueId, ValueTable,
};
pub use kinds::{PathKind, TerminalKind, TypeKind};
pub use laws::{
    always_formed_stands, counts_stand, flattened_stand, formed_stands, log_stands,
    merge_formed_stands, merges_stand, opens_stand, reading_stands, run_samples_stand, runs_stand,
    samples_stand, sides_stand, step_but_merge_stands, targets_stand,
};
pub use node::Node;
pub use rows::{
    DependencyRow, IdentifierRow, NONE, PathRow, ReadRow, Row, ShapeRow, TypeRow, ValueRow,
};
pub use scope::Status;
pub use value::{Reads, Value};

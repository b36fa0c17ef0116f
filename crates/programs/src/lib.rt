//! What the programs share: the memory that they lend to a sheet, the run of a block file on it, and how an answer is written.

#![tactic(auto)]

mod blocks;
mod came;
mod ended;
mod fault;
mod memory;
mod place;

pub use blocks::{run, run_blocks, run_each};
pub use came::Came;
pub use ended::failed;
pub use fault::{BadBlock, Fault};
pub use memory::{Lent, Memory};
pub use place::Place;

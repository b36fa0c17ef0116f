//! Writes records into blocks and takes them out again.

#![tactic(auto)]

mod blocks;
mod decode;
mod fill;
mod page;

pub use blocks::{Refusal, fill_blocks};
pub use decode::{records_of, round_trip};
pub use fill::fill_block;
pub use page::Page;

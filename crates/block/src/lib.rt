//! The 512-byte blocks that records come in: what makes one good, and the records inside it.

#![tactic(auto)]

mod bytes;
mod check;
mod cursor;
mod layout;
mod record;

pub use check::{Checked, Fault, Unchecked, check_of};
pub use cursor::Cursor;
pub use layout::{CHECK_AT, COUNT_AT, MOST, NUMBER_AT, RECORD, SIZE};
pub use record::Record;

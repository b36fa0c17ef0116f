//! Records as lines of text, both ways, and a block of a file as text.

#![tactic(auto)]

mod lines;
mod listing;
mod names;
mod read;
mod rows;
mod show;
mod words;

pub use lines::{TextError, read_text};
pub use listing::Listing;
pub use names::Kinds;
pub use read::read_line;
pub use show::Line;
pub use words::{Complaint, Expected};

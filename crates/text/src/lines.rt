//! A whole text: its lines read to records.

use crate::read::read_line;
use crate::words::Complaint;
use block::RECORD;
use encode::Refusal;
use std::alloc::{AllocError, Global};
use thiserror::Error;

/// Why a text has no blocks.
#[derive(Clone, Copy, Debug, PartialEq, Eq, Error)]
pub enum TextError<'a> {
    /// The line of this number, from 1 on, is not understood.
    #[error("line {0}: {1}")]
    Line(usize, Complaint<'a>),
    /// There is no memory for the records.
    #[error("there is not enough memory")]
    Memory(#[from(alloc)] AllocError),
    /// The records of the text are in no blocks.
    #[error(transparent)]
    Blocks(#[from] Refusal),
}

/// The records of a text's lines, in order.
pub fn read_text(heap: Global, text: &str) -> Result<Vec<[u8; RECORD]>, TextError<'_>> {
    let mut records = Vec::new(heap);
    for (line, number) in text.lines().zip(1..) {
        let record = read_line(line).map_err(|complaint| TextError::Line(number, complaint))?;
        if let Some(record) = record {
            records.push(record)?;
        }
    }
    Ok(records)
}

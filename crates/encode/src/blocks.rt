//! Writes any number of records into blocks, 31 to a block.

ghost use Rattle.std.specs.Prelude.{◌≡◌, MatchResult};
ghost use Rattle.encode.specs.Files.{Holds, Refuses};
ghost use Rattle.encode.specs.declared.blocks.Refusal.TheVariants.{Memory};

use crate::fill::fill_block;
use block::{MOST, RECORD, SIZE};
use std::alloc::{AllocError, Global};
use thiserror::Error;

/// The most records that blocks with numbers of four bytes hold.
const LIMIT: usize = MOST * 4294967296;

/// Why records are not written.
#[derive(Clone, Copy, Debug, PartialEq, Eq, Error)]
pub enum Refusal {
    #[error("there is not enough memory")]
    Memory,
    #[error("there are more records than blocks can be numbered for")]
    TooMany,
}

impl From<AllocError> for Refusal {
    ghost from_gives = { λ _ r. r ≡ Memory };

    /// What is missing where an allocation fails. By hand, since a clause names the refusal, and a derived conversion has no contract.
    fn from(_e: AllocError) -> Refusal {
        Refusal::Memory
    }
}

/// The blocks of the records, numbered from 0.
pub fn fill_blocks(heap: Global, records: &[[u8; RECORD]]) -> Result<Vec<u8>, Refusal>
    ensures { MatchResult result (λ v. Holds records.now v.items) (λ e. Refuses records.now e) }
{
    if records.len() > LIMIT {
        return Err(Refusal::TooMany);
    }
    let mut bytes = Vec::new(heap);
    let mut block = [0; SIZE];
    for (number, portion) in records.chunks(MOST).enumerate() {
        fill_block(portion, number as u32, &mut block);
        bytes.extend_from_slice(&block)?;
    }
    Ok(bytes)
}

//! Takes the records out of a block, and writes them into one again.

ghost use Rattle.std.specs.Prelude.{◌≡◌, IfOk, None, OnOk};
ghost use Rattle.block.specs.Block.{fault_of, records_of};
ghost use Rattle.block.specs.Left.{records_in};

use crate::fill::fill_block;
use block::{Checked, RECORD, SIZE};
use std::alloc::{AllocError, Global};

/// The records of a good block, in order.
pub fn records_of(heap: Global, block: &Checked) -> Result<Vec<[u8; RECORD]>, AllocError>
    ensures { IfOk result (λ v. v.items ≡ records_in block.now) }
{
    let mut records = Vec::new(heap);
    for record in block.records() {
        records.push(record)?;
    }
    Ok(records)
}

/// Writes the records of a good block into a block again, under this number.
pub fn round_trip(
    heap: Global,
    block: &Checked,
    number: u32,
    bytes: &mut [u8; SIZE],
) -> Result<(), AllocError>
    ensures { OnOk result ((fault_of bytes.new number ≡ None) × (records_of bytes.new ≡ records_in block.now)) }
{
    let records = records_of(heap, block)?;
    fill_block(records.as_slice(), number, bytes);
    Ok(())
}

//! Writes records into a block.

ghost use Rattle.std.specs.Prelude.{◌≡◌, ◌+◌, ◌-◌, ◌*◌, ◌≤◌, min, ◌++◌, length, take, drop, replicate, None};
ghost use Rattle.block.specs.Block.{fault_of, records_of};
ghost use Rattle.encode.specs.Filled.{in_row, block_of};

use block::{CHECK_AT, COUNT_AT, MOST, NUMBER_AT, RECORD, SIZE, check_of};

/// Puts the bytes of a part at a place.
fn put(bytes: &mut [u8; SIZE], at: usize, part: &[u8])
    requires { at + length part.now ≤ 512 }
    ensures { bytes.new ≡ take at bytes.old ++ (part.now ++ drop (at + length part.now) bytes.old) }
{
    bytes[at..at + part.len()].copy_from_slice(part);
}

/// Puts the first 31 records from the start on, and zeros after them. Answers how many those are.
fn put_records(records: &[[u8; RECORD]], bytes: &mut [u8; SIZE]) -> usize
    ensures taken { result ≡ min 31 (length records.now) }
    ensures exact { bytes.new ≡ in_row (take 31 records.now) ++ replicate (512 - 16 * result) 0 }
{
    bytes.fill(0);
    let taken = &records[..records.len().min(MOST)];
    for (i, record) in taken.iter().enumerate() {
        put(bytes, RECORD * i, record);
    }
    taken.len()
}

/// Fills a block with the first 31 of the records. Answers how many it took.
pub fn fill_block(records: &[[u8; RECORD]], number: u32, bytes: &mut [u8; SIZE]) -> usize
    ensures taken { result ≡ min 31 (length records.now) }
    ensures exact { bytes.new ≡ block_of number (take 31 records.now) }
    ensures good { fault_of bytes.new number ≡ None }
    ensures same { records_of bytes.new ≡ take 31 records.now }
{
    let count = put_records(records, bytes);
    put(bytes, NUMBER_AT, &number.to_le_bytes());
    put(bytes, COUNT_AT, &(count as u16).to_le_bytes());
    let check = check_of(bytes);
    put(bytes, CHECK_AT, &check.to_le_bytes());
    count
}

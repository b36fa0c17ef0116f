//! A block before and after its check. Each state is a type, and a block moves from one to the next.

ghost use Rattle.std.specs.Prelude.{◌≡◌, ℕ, ◌+◌, ◌^◌, ◌<◌, ◌≤◌, length, Some, None, MatchOption, MatchResult};
ghost use Rattle.block.specs.Block.{check_of, fault_in, fault_of, fault_number};
ghost use Rattle.block.specs.Left.{left, records_in, Sealed};

use crate::bytes::{u16_at, u32_at};
use crate::cursor::Cursor;
use crate::layout::{CHECK_AT, COUNT_AT, MOST, NUMBER_AT, SIZE};
use thiserror::Error;

/// What is wrong with a block. A host and a technician know it by its number.
#[derive(Clone, Copy, Debug, PartialEq, Eq, Error)]
pub enum Fault {
    #[error("the bytes end before the block does")]
    Short = 1,
    #[error("its check differs from its bytes")]
    Check = 2,
    #[error("its number is not its place")]
    Number = 3,
    #[error("its count is above 31")]
    Count = 4,
}

impl From<Fault> for u8 {
    ghost from_gives = { λ fault number. number ≡ fault_number fault };

    /// The fault's number.
    fn from(fault: Fault) -> u8 {
        fault as u8
    }
}

/// The bytes where a block should begin, not looked at yet.
#[derive(Drop)]
pub struct Unchecked<'a> {
    bytes: &'a [u8],
    place: u64,
}

/// A good block. It lends its bytes until it is spent for the number of the next one. The count is the block's own, of the places that hold a
/// record.
pub struct Checked<'a> {
    bytes: &'a [u8; SIZE],
    number: u32,
    count: usize,
}

/// Each byte before the check, times its place and one more.
pub fn check_of(bytes: &[u8; SIZE]) -> u32
    ensures { result ≡ check_of bytes.now }
{
    // No chain that ends in `sum`: it asks at once that each product and the whole sum fit (`sum-requires-clause-can` and `-fits` stay open),
    // which the loop shows a step at a time.
    let mut sum = 0;
    for (i, byte) in bytes[..CHECK_AT].iter().enumerate() {
        sum += (i as u32 + 1) * u32::from(*byte);
    }
    sum
}

/// What is wrong with a whole block at this place.
fn fault_in(bytes: &[u8; SIZE], place: u64) -> Result<(), Fault>
    ensures { MatchResult result (λ _. fault_in bytes.now place ≡ None) (λ f. fault_in bytes.now place ≡ Some f) }
{
    if u32_at(bytes, CHECK_AT) != check_of(bytes) {
        return Err(Fault::Check);
    }
    if u64::from(u32_at(bytes, NUMBER_AT)) != place {
        return Err(Fault::Number);
    }
    if usize::from(u16_at(bytes, COUNT_AT)) > MOST {
        return Err(Fault::Count);
    }
    Ok(())
}

impl<'a> Unchecked<'a> {
    /// The block that begins with these bytes, the one at `place` from 0; none where no byte is left.
    pub fn new(bytes: &'a [u8], place: u64) -> Option<Unchecked<'a>>
        ensures { MatchOption result (length bytes.now ≡ 0) (λ b. (0 < length bytes.now) × (b.bytes.now ≡ bytes.now) × (b.place ≡ place)) }
    {
        if bytes.is_empty() {
            return None;
        }
        Some(Unchecked { bytes, place })
    }

    /// Spends the unchecked block for a checked one, or says what is wrong with it.
    pub fn check(self) -> Result<Checked<'a>, Fault>
        ensures { MatchResult result (λ b. (fault_of self.entry.bytes.now self.entry.place ≡ None) × Sealed self.entry.bytes.now self.entry.place b)
            (λ f. fault_of self.entry.bytes.now self.entry.place ≡ Some f) }
    {
        let Some(bytes) = self.bytes.first_chunk::<SIZE>() else {
            return Err(Fault::Short);
        };
        fault_in(bytes, self.place)?;
        Ok(Checked {
            bytes,
            number: u32_at(bytes, NUMBER_AT),
            count: usize::from(u16_at(bytes, COUNT_AT)),
        })
    }
}

impl<'a> Checked<'a> {
    /// The block's records, from the first on.
    pub fn records(&self) -> Cursor<'a>
        ensures { left result ≡ records_in self.now }
    {
        Cursor::new(self.bytes, self.count)
    }

    /// Lets the block go, for the place of the next one.
    pub fn next_place(self) -> u64
        ensures { result ≡ self.entry.number + 1 }
    {
        let Checked {
            bytes: _,
            number,
            count: _,
        } = self;
        u64::from(number) + 1
    }
}

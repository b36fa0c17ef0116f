//! The records of a block, one after the other.

ghost use Rattle.std.specs.Prelude.{◌≡◌, min};
ghost use Rattle.std.specs.Iterator.{YieldsFirst, item_count};
ghost use Rattle.block.specs.Block.{records_from};
ghost use Rattle.block.specs.Left.{left};

use crate::layout::{MOST, RECORD, SIZE};

/// Hands out the records of a block, one after the other. It keeps a place and copies: chunks of the array would need a lemma on what they
/// hold, where the copy needs no proof.
#[derive(Drop)]
pub struct Cursor<'a> {
    bytes: &'a [u8; SIZE],
    at: usize,
    count: usize,
}

impl<'a> Cursor<'a> {
    /// The first `count` records of a block's bytes.
    pub(crate) fn new(bytes: &'a [u8; SIZE], count: usize) -> Cursor<'a>
        ensures { left result ≡ records_from bytes.now 0 (min 31 count) }
    {
        Cursor {
            bytes,
            at: 0,
            count,
        }
    }
}

impl Iterator for Cursor<'_> {
    type Item = [u8; RECORD];

    ghost next_gives = { YieldsFirst left };

    ghost remaining = { item_count left };

    /// The next record, or none after the last.
    fn next(&mut self) -> Option<[u8; RECORD]> {
        if self.at >= self.count || self.at >= MOST {
            return None;
        }
        let from = RECORD * self.at;
        let bytes = self.bytes;
        let mut record = [0; RECORD];
        record.copy_from_slice(&bytes[from..from + RECORD]);
        self.at += 1;
        Some(record)
    }
}

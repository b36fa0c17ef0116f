//! A block of a file, good or not.

ghost use Rattle.std.specs.Prelude.{◌≡◌, IfOk};
ghost use Rattle.encode.specs.Pages.{Shows, is_good};

use crate::decode::records_of;
use block::{Fault, RECORD, Unchecked};
use std::alloc::{AllocError, Global};

/// One block of a file, at its place from 0 on. It is no `Result` of an `Option`: a bad block has its place too, and the end has none.
#[derive(Drop)]
pub enum Page {
    Good {
        place: u64,
        records: Vec<[u8; RECORD]>,
    },
    Bad {
        place: u64,
        fault: Fault,
    },
    /// No byte is left.
    End,
}

impl Page {
    /// The block that begins with these bytes. It is no `TryFrom`, as it takes the heap and the place besides.
    pub fn of(heap: Global, bytes: &[u8], place: u64) -> Result<Page, AllocError>
        ensures { IfOk result (λ p. Shows bytes.now place p) }
    {
        let Some(unchecked) = Unchecked::new(bytes, place) else {
            return Ok(Page::End);
        };
        match unchecked.check() {
            Ok(block) => {
                let records = records_of(heap, &block);
                block.next_place();
                Ok(Page::Good {
                    place,
                    records: records?,
                })
            }
            Err(fault) => Ok(Page::Bad { place, fault }),
        }
    }

    /// Whether nothing is wrong with it.
    pub fn is_good(&self) -> bool
        ensures { result ≡ is_good self.now }
    {
        matches!(self, Page::Good { .. } | Page::End)
    }
}

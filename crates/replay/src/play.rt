//! A case replayed.

use crate::case::Case;
use crate::failure::Failure;
use block::MOST;
use encode::fill_blocks;
use programs::{Came, Fault, Lent, Memory, Place, run};
use std::alloc::Global;
use std::io::Write;

/// What came of a case, where it is not as expected.
#[derive(Drop)]
pub struct Difference {
    /// The pass that differs.
    pub pass: &'static str,
    /// What it wrote.
    pub got: Vec<u8>,
}

/// Runs blocks as sheetrun does.
fn play_blocks(heap: Global, blocks: &[u8]) -> Result<Vec<u8>, Failure> {
    let mut out = Vec::new(heap);
    let mut input = blocks;
    match run(heap, &mut input, &mut out) {
        Ok(()) => {}
        Err(Fault::Block(bad)) => writeln!(out, "{bad}")?,
        Err(fault) => return Err(fault.into()),
    }
    Ok(out)
}

/// Runs records by the call that examines the tables each time.
fn play_examined(heap: Global, records: &[[u8; 16]]) -> Result<Vec<u8>, Failure> {
    let mut memory = Memory::new(heap)?;
    let Lent {
        mut sheet,
        mut work,
    } = memory.lend();
    sheet.start(&work).map_err(Fault::from)?;
    let mut out = Vec::new(heap);
    for (i, record) in records.iter().enumerate() {
        let answer = sheet.take(&mut work, *record);
        let lines = &*work.lines;
        let place = Place {
            block: (i / MOST) as u64,
            record: (i % MOST) as u64,
        };
        write!(
            out,
            "{}",
            Came {
                answer,
                lines,
                place
            }
        )?;
    }
    Ok(out)
}

impl Case {
    /// The blocks of its records, with its changes made.
    fn blocks(&self, heap: Global) -> Result<Vec<u8>, Failure> {
        let mut bytes = fill_blocks(heap, self.records.as_slice())?;
        for change in self.changes.as_slice() {
            change.make(&mut bytes)?;
        }
        Ok(bytes)
    }

    /// What a pass wrote, where that is not as expected.
    fn difference(&self, pass: &'static str, got: Vec<u8>) -> Option<Difference> {
        if got.as_slice() == self.expected.as_bytes() {
            None
        } else {
            Some(Difference { pass, got })
        }
    }

    /// Replays it, on a sheet known to be sound, and where its blocks are as written also with each record's tables examined. Answers the first
    /// pass that differs.
    pub fn play(&self, heap: Global) -> Result<Option<Difference>, Failure> {
        let blocks = self.blocks(heap)?;
        let differs = self.difference("as sheetrun", play_blocks(heap, blocks.as_slice())?);
        if differs.is_some() || !self.changes.is_empty() {
            return Ok(differs);
        }
        let examined = play_examined(heap, self.records.as_slice())?;
        Ok(self.difference("examined", examined))
    }
}

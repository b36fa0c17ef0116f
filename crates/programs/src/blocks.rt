//! The run: block after block, and each block's records.

ghost use Rattle.std.specs.Prelude.{◌≤◌, length, IfOk};
ghost use Rattle.sheet.specs.Tables.{memory as held, work_memory};
ghost use Rattle.sheet.specs.Kept.{Ready};

use crate::came::Came;
use crate::fault::{BadBlock, Fault};
use crate::memory::{Lent, Memory};
use crate::place::Place;
use block::{Checked, Cursor, MOST, SIZE, Unchecked};
use sheet::{Sheet, Work};
use std::alloc::Global;
use std::io;
use std::io::{Read, Write};

/// Runs the blocks of the input on a new sheet, and writes what came of them.
pub fn run<R: Read, W: Write>(heap: Global, input: &mut R, out: &mut W) -> Result<(), Fault> {
    let mut memory = Memory::new(heap)?;
    let Lent {
        mut sheet,
        mut work,
    } = memory.lend();
    sheet.start(&work)?;
    run_blocks(input, out, &mut sheet, &mut work)
}

/// Fills the buffer from the input, and says how far: not to its end where the input ends before. The library's `read_exact` does not say how
/// far it came, and its `read_to_end` wants a vector.
fn fill<R: Read>(input: &mut R, buffer: &mut [u8]) -> io::Result<usize>
    ensures { IfOk result (λ n. n ≤ length buffer.new) }
{
    let mut n = 0;
    while n < buffer.len() {
        match input.read(&mut buffer[n..])? {
            0 => break,
            got => n += got,
        }
    }
    Ok(n)
}

/// Checks the block at a place among the blocks; a fault is carried with the place of the block's first record.
fn check(unchecked: Unchecked<'_>, block: u64) -> Result<Checked<'_>, BadBlock> {
    let place = Place { block, record: 0 };
    unchecked.check().map_err(|fault| BadBlock { fault, place })
}

/// Runs the blocks of the input, to its end or to the first that is not good, and writes what came of each record.
pub fn run_blocks<R: Read, W: Write>(
    input: &mut R,
    out: &mut W,
    sheet: &mut Sheet<'_>,
    work: &mut Work<'_>,
) -> Result<(), Fault>
    requires { Ready (held sheet.old) (work_memory work.old) }
    ensures { Ready (held sheet.new) (work_memory work.new) }
{
    run_each(input, sheet, work, |came| write!(out, "{came}"))
}

/// Runs the blocks of the input, to its end or to the first that is not good, and hands on what came of each record. The sheet is a host's: that
/// it is ready is asked for, as it is of `Sheet::take_sound`.
pub fn run_each<R: Read, F: FnMut(Came<'_>) -> io::Result<()>>(
    input: &mut R,
    sheet: &mut Sheet<'_>,
    work: &mut Work<'_>,
    mut each: F,
) -> Result<(), Fault>
    requires ready { Ready (held sheet.old) (work_memory work.old) }
    requires each { F.IsAlwaysCallable each }
    ensures { Ready (held sheet.new) (work_memory work.new) }
{
    let mut buffer = [0; SIZE];
    let mut place = 0;
    // A bound for the proof that the run ends: a block's number has four bytes, so no input has as many good blocks as this.
    for _turn in 0..u64::MAX {
        let n = fill(input, &mut buffer)?;
        let Some(unchecked) = Unchecked::new(&buffer[0..n], place) else {
            break;
        };
        let block = check(unchecked, place)?;
        let done = run_records(place, block.records(), sheet, work, &mut each);
        place = block.next_place();
        done?;
    }
    Ok(())
}

/// Runs the records of a block, and hands on what came of each.
fn run_records<F: FnMut(Came<'_>) -> io::Result<()>>(
    block: u64,
    records: Cursor<'_>,
    sheet: &mut Sheet<'_>,
    work: &mut Work<'_>,
    each: &mut F,
) -> io::Result<()>
    requires ready { Ready (held sheet.old) (work_memory work.old) }
    requires each { F.IsAlwaysCallable each.old }
    ensures ready { Ready (held sheet.new) (work_memory work.new) }
    ensures each { F.IsAlwaysCallable each.new }
{
    for (record, bytes) in (0..MOST as u64).zip(records) {
        let answer = sheet.take_sound(work, bytes);
        let lines = &*work.lines;
        let place = Place { block, record };
        each(Came {
            answer,
            lines,
            place,
        })?;
    }
    Ok(())
}

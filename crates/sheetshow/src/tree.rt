//! The tree that the records build, as comment lines.

use crate::shown::Shown;
use block::Record;
use programs::{Came, Fault, Lent, Memory, run_each};
use screen::Answer;
use sheet::{Sheet, Work};
use std::alloc::Global;
use std::io;
use std::io::Write;

/// Runs the blocks on a new sheet, and writes what is refused and the tree that stands in the end.
pub fn show_tree<W: Write>(out: &mut W, heap: Global, blocks: &[u8]) -> Result<(), Fault> {
    let mut memory = Memory::new(heap)?;
    let Lent {
        mut sheet,
        mut work,
    } = memory.lend();
    sheet.start(&work)?;
    writeln!(out, "# tree")?;
    let mut input = blocks;
    let ended = run_each(&mut input, &mut sheet, &mut work, |came| {
        show_refused(out, came)
    });
    match ended {
        Ok(()) => {}
        Err(Fault::Block(bad)) => writeln!(out, "# {bad}")?,
        Err(fault) => return Err(fault),
    }
    show_list(out, &mut sheet, &mut work)?;
    Ok(())
}

/// Writes what came of a record that was refused.
fn show_refused<W: Write>(out: &mut W, came: Came<'_>) -> io::Result<()> {
    if came.answer.is_err() {
        write!(out, "# {came}")?;
    }
    Ok(())
}

/// Lists what stands, by the record that asks for it (its tag is a number, as in a block), and writes it, one node to a line.
fn show_list<W: Write>(out: &mut W, sheet: &mut Sheet<'_>, work: &mut Work<'_>) -> io::Result<()> {
    let list = Record {
        tag: 14,
        ..Record::default()
    };
    let Ok(Answer::Listed(count)) = sheet.take(work, list.into()) else {
        return Ok(());
    };
    for line in work.lines.iter().take(count as usize) {
        Shown { sheet, line }.write(out)?;
    }
    Ok(())
}

//! Blocks from standard input to text on standard output, and after the word `tree` also the tree that they build. A block that is not
//! good is named in a comment, and the program fails.

#![tactic(auto)]

mod shown;
mod tree;

use anyhow::{Result, bail};
use block::SIZE;
use encode::Page;
use programs::{Fault, failed};
use std::alloc::Global;
use std::io::{BufWriter, Read, Write};
use std::process::ExitCode;
use std::{env, io};
use text::Listing;
use tree::show_tree;

/// Writes the lines of each block. Answers whether all of them are good.
fn show_lines<W: Write>(out: &mut W, heap: Global, bytes: &[u8]) -> io::Result<bool> {
    let mut good = true;
    for (place, part) in bytes.chunks(SIZE).enumerate() {
        let page = Page::of(heap, part, place as u64)?;
        write!(out, "{}", Listing(&page))?;
        good &= page.is_good();
    }
    Ok(good)
}

/// Whether the tree is asked for, by the word `tree` after the program's name. A parser of command lines would say of another word more than
/// the program says.
fn wants_tree(rt: &HostRuntime) -> Result<bool> {
    match env::args(rt).map_err(Fault::Io)?.nth(1) {
        None => Ok(false),
        Some(word) if word.as_str() == "tree" => Ok(true),
        Some(_) => bail!("the only word that may follow is tree"),
    }
}

/// Shows blocks, and their tree where it is asked for. Answers whether every block is good.
fn show_blocks<W: Write>(
    out: &mut W,
    heap: Global,
    bytes: &[u8],
    tree: bool,
) -> Result<bool, Fault> {
    let good = show_lines(out, heap, bytes)?;
    if tree {
        // a full output is told before memory for the tables is asked for
        out.flush()?;
        show_tree(out, heap, bytes)?;
    }
    out.flush()?;
    Ok(good)
}

/// Shows standard input through a buffer, which only saves calls: where there is no memory for one, without.
fn show(rt: &HostRuntime, tree: bool) -> Result<bool, Fault> {
    let heap = rt.alloc();
    let mut bytes = Vec::new(heap);
    rt.stdin().read_to_end(&mut bytes)?;
    match BufWriter::new(heap, rt.stdout()) {
        Ok(mut out) => show_blocks(&mut out, heap, bytes.as_slice(), tree),
        Err(_) => show_blocks(&mut rt.stdout(), heap, bytes.as_slice(), tree),
    }
}

/// Shows standard input. Answers whether every block is good. Its errors are short, and `anyhow` keeps the first 120 bytes of a message.
fn run(rt: &HostRuntime) -> Result<bool> {
    let tree = wants_tree(rt)?;
    Ok(show(rt, tree)?)
}

fn main(rt: HostRuntime) -> ExitCode {
    match run(&rt) {
        Ok(true) => ExitCode::SUCCESS,
        // its comment has said what is wrong
        Ok(false) => ExitCode::FAILURE,
        Err(error) => failed(&rt, "sheetshow", &error),
    }
}

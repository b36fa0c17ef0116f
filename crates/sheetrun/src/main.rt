//! Runs the records of a block file on a new sheet, and prints what came of them.

#![tactic(auto)]

use programs::{Fault, failed, run};
use std::io::{LineWriter, Write};
use std::process::ExitCode;

/// Runs standard input. A block that is refused ends the run, and is printed as a record's refusal is.
fn run_input<W: Write>(rt: &HostRuntime, out: &mut W) -> Result<(), Fault> {
    let ended = match run(rt.alloc(), &mut rt.stdin(), out) {
        Err(Fault::Block(bad)) => Ok(writeln!(out, "{bad}")?),
        other => other,
    };
    out.flush()?;
    ended
}

/// Prints line by line: a host may send a block and wait for its answers before it sends more. The buffer only saves calls within a line, and
/// where there is no memory for it the program prints without.
fn report(rt: &HostRuntime) -> Result<(), Fault> {
    match LineWriter::new(rt.alloc(), rt.stdout()) {
        Ok(mut out) => run_input(rt, &mut out),
        Err(_) => run_input(rt, &mut rt.stdout()),
    }
}

fn main(rt: HostRuntime) -> ExitCode {
    match report(&rt) {
        Ok(()) => ExitCode::SUCCESS,
        Err(fault) => failed(&rt, "sheetrun", &fault),
    }
}

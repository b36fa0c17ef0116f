//! Text from standard input to blocks on standard output. Nothing is written where a line is not understood.

#![tactic(auto)]

use encode::fill_blocks;
use std::alloc::Global;
use std::io;
use std::io::{Read, Write};
use std::process::ExitCode;
use text::{TextError, read_text};
use thiserror::Error;

/// Why no blocks are written. It keeps what is wrong as values, since a message may be longer than the 120 bytes that `anyhow` keeps of one.
#[derive(Debug, Drop, Error)]
enum Failure<'a> {
    #[error(transparent)]
    Input(#[from] io::Error),
    #[error(transparent)]
    Text(#[from] TextError<'a>),
}

/// The blocks of a text.
fn assemble(heap: Global, text: &str) -> Result<Vec<u8>, TextError<'_>> {
    let records = read_text(heap, text)?;
    Ok(fill_blocks(heap, records.as_slice())?)
}

/// The blocks of all of standard input, whose text is kept here.
fn blocks<'a>(rt: &HostRuntime, text: &'a mut String) -> Result<Vec<u8>, Failure<'a>> {
    rt.stdin().read_to_string(text)?;
    Ok(assemble(rt.alloc(), text.as_str())?)
}

/// Writes the blocks, or says on standard error why it could not. `failed` of crate `programs` says it for the other programs; this one stands
/// on the text form alone, with no sheet.
fn run(rt: &HostRuntime) -> io::Result<ExitCode> {
    let mut text = String::new(rt.alloc());
    match blocks(rt, &mut text) {
        Ok(bytes) => {
            rt.stdout().write_all(bytes.as_slice())?;
            Ok(ExitCode::SUCCESS)
        }
        Err(failure) => {
            eprintln!(rt; "sheetasm: {failure}")?;
            Ok(ExitCode::FAILURE)
        }
    }
}

// The runtime prints an error that main returns, and where writing fails there is nothing to say it on.
fn main(rt: HostRuntime) -> ExitCode {
    run(&rt).unwrap_or(ExitCode::FAILURE)
}

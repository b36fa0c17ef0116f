//! Why a replay ends without an answer.

use std::alloc::AllocError;
use std::io;
use std::num::ParseIntError;
use thiserror::Error;

/// Why a replay ends without an answer.
#[derive(Debug, Drop, Error)]
pub enum Failure {
    /// A line of a case file is not understood.
    #[error("the line is not understood")]
    Line,
    /// A line of a case file has another word where a number should stand.
    #[error("the line is not understood")]
    Number(#[from] ParseIntError),
    /// A case file ends inside a case.
    #[error("a file ends inside a case")]
    Unended,
    /// There is no memory.
    #[error("there is no memory")]
    Memory(#[from(alloc)] AllocError),
    /// There is no memory for the blocks of a case.
    #[error("there is no memory")]
    Blocks(#[from] encode::Refusal),
    /// A file cannot be read, or the output not written.
    #[error(transparent)]
    Io(#[from] io::Error),
    /// A sheet could not be run.
    #[error(transparent)]
    Run(#[from] programs::Fault),
}

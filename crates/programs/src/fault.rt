//! Why a run ends before its input does.

use crate::place::Place;
use std::alloc::AllocError;
use std::io;
use thiserror::Error;

/// A block that is not good. It ends the run at the place of its first record. Its words stand here alone; where they are written, and what
/// becomes of the other faults, differs from program to program.
#[derive(Clone, Copy, Debug, PartialEq, Eq, Error)]
#[error("refused {} {place}", u8::from(*.fault))]
pub struct BadBlock {
    pub fault: block::Fault,
    pub place: Place,
}

/// Why a run ends before its input does.
#[derive(Debug, Drop, Error)]
pub enum Fault {
    /// A block is refused.
    #[error(transparent)]
    Block(#[from] BadBlock),
    /// The input cannot be read, or the output not written.
    #[error("the input cannot be read, or the output not written: {0}")]
    Io(#[from] io::Error),
    /// There is no memory for the tables.
    #[error("there is no memory for the tables")]
    Memory(#[from] AllocError),
    /// The tables are refused for a new sheet.
    #[error("the tables are too short")]
    Tables(#[from] screen::Refusal),
}

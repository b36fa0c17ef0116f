//! Changes of a case's blocks, byte by byte, for blocks that no encoder writes.

ghost use Rattle.std.specs.Prelude.{◌≡◌, [], IsErr};

use crate::failure::Failure;
use std::str::FromStr;

/// A change of the bytes.
#[derive(Clone, Copy, Debug, PartialEq, Eq)]
pub enum Change {
    /// So many zeros at the end.
    Zeros(u32),
    /// This byte at this place.
    Set { at: usize, byte: u8 },
    /// Only so many bytes are left.
    Cut(usize),
}

/// The change that a line writes: `zeros COUNT`, `set PLACE BYTE` or `cut LENGTH`.
impl FromStr for Change {
    type Err = Failure;

    // an empty line writes none
    ghost from_str_gives = { λ text r. text ≡ [] → IsErr r };

    fn from_str(line: &str) -> Result<Change, Failure> {
        let mut words = line.split_whitespace();
        match (words.next(), words.next(), words.next()) {
            (Some("zeros"), Some(count), None) => Ok(Change::Zeros(count.parse()?)),
            (Some("set"), Some(at), Some(byte)) => Ok(Change::Set {
                at: at.parse()?,
                byte: byte.parse()?,
            }),
            (Some("cut"), Some(length), None) => Ok(Change::Cut(length.parse()?)),
            _ => Err(Failure::Line),
        }
    }
}

impl Change {
    /// Makes the change.
    pub fn make(self, bytes: &mut Vec<u8>) -> Result<(), Failure> {
        match self {
            Change::Zeros(count) => {
                bytes.resize(bytes.len().saturating_add(count as usize), 0)?;
            }
            Change::Set { at, byte } => *bytes.get_mut(at).ok_or(Failure::Line)? = byte,
            Change::Cut(length) => bytes.truncate(length),
        }
        Ok(())
    }
}

//! A case as its file has it.

use crate::bytes::Change;
use crate::failure::Failure;
use std::alloc::Global;
use text::read_line;

/// Which part of a case a line belongs to. Lines are read one at a time, so that what is wrong with one can be said with its number.
#[derive(Clone, Copy, Debug, PartialEq, Eq)]
enum Part {
    Outside,
    Records,
    Bytes,
    Expected,
}

/// A case: its records, the changes of their blocks, and what is expected of them.
#[derive(Drop)]
pub struct Case {
    pub name: String,
    pub records: Vec<[u8; 16]>,
    pub changes: Vec<Change>,
    pub expected: String,
    part: Part,
}

impl Case {
    /// A case of which no line is read.
    pub fn new(heap: Global) -> Case {
        Case {
            name: String::new(heap),
            records: Vec::new(heap),
            changes: Vec::new(heap),
            expected: String::new(heap),
            part: Part::Outside,
        }
    }

    /// Whether a line of it is read.
    pub fn is_begun(&self) -> bool {
        self.part != Part::Outside
    }

    /// Reads one more line. Answers whether the case is whole.
    pub fn read(&mut self, heap: Global, line: &str) -> Result<bool, Failure> {
        match line.trim() {
            "bytes:" => self.part = Part::Bytes,
            "expect:" => self.part = Part::Expected,
            "end" => return Ok(true),
            text => self.read_in_part(heap, text)?,
        }
        Ok(false)
    }

    /// Reads a line by the part that it belongs to.
    fn read_in_part(&mut self, heap: Global, line: &str) -> Result<(), Failure> {
        match self.part {
            Part::Outside => self.begin(line),
            Part::Records => self.read_records(heap, line),
            Part::Bytes => Ok(self.changes.push(line.parse()?)?),
            Part::Expected => {
                self.expected.push_str(line)?;
                Ok(self.expected.push_str("\n")?)
            }
        }
    }

    /// Reads the name, after empty lines and comments.
    fn begin(&mut self, line: &str) -> Result<(), Failure> {
        if line.is_empty() || line.starts_with("#") {
            return Ok(());
        }
        let name = line.strip_prefix("case: ").ok_or(Failure::Line)?;
        self.part = Part::Records;
        Ok(self.name.push_str(name)?)
    }

    /// Reads a record, or as many as a line repeats.
    fn read_records(&mut self, heap: Global, line: &str) -> Result<(), Failure> {
        let Some(rest) = line.strip_prefix("repeat ") else {
            return self.read_record(line);
        };
        let (count, form) = rest.split_once(": ").ok_or(Failure::Line)?;
        self.read_repeated(heap, count.parse()?, form)
    }

    /// Reads a record so many times; a star in its form is the turn, from 0 on.
    fn read_repeated(&mut self, heap: Global, count: u32, form: &str) -> Result<(), Failure> {
        for turn in 0..count {
            let number = turn.to_string(heap)?;
            let line = form.replace(heap, "*", number.as_str())?;
            self.read_record(line.as_str())?;
        }
        Ok(())
    }

    /// Reads a record in the text form, or a line that has none.
    fn read_record(&mut self, line: &str) -> Result<(), Failure> {
        if let Some(record) = read_line(line).map_err(|_| Failure::Line)? {
            self.records.push(record)?;
        }
        Ok(())
    }
}

//! A record as its line of text. Words stand for a record whose other fields are blank; any other record is raw.
//!
//! A block may hold any bytes, so a record's tag and kind are the numbers that stand there, and each `match` lists those that have words.
//! Where few fields have to be blank they are tested one by one: a record to compare with takes more lines than the fields.
//! A function here takes a record and a formatter, as `fmt` does: a type with a `Display` for each would only wrap the record.

use crate::names::{Kinds, NODES, PATHS, RULES, TERMINALS, TYPES, VALUES};
use crate::rows::{blank, row_of};
use block::{RECORD, Record};
use std::{fmt, str};

/// A record's line of text, the one that is written for these sixteen bytes.
#[derive(Clone, Copy, Debug, PartialEq, Eq)]
pub struct Line(pub [u8; RECORD]);

impl fmt::Display for Line {
    fn fmt<W: fmt::Write>(&self, f: &mut fmt::Formatter<W>) -> fmt::Result {
        let x = Record::from(self.0);
        if !in_words(x) {
            return show_raw(self.0, f);
        }
        match x.tag {
            1 => show_type(x, f),
            2 => write!(f, "identifier {} type {}", x.r, x.s),
            3 => show_path(x, f),
            4 => write!(f, "scope {} {}", x.r, x.s),
            5 => show_dependency(x, f),
            6 => write!(f, "declare {} as {}", x.r, x.s),
            7 => write!(f, "reassign {}", x.r),
            8 => write!(f, "read {}", x.r),
            9 => show_value(x, f),
            10 => show_add(x, f),
            11 => show_open(x, f),
            12 => f.write_str("close"),
            13 => write!(f, "merge {}", name_of(RULES, x.p.into())),
            14 => f.write_str("list"),
            _ => write!(f, "shape {}", x.r),
        }
    }
}

/// Whether a record's line is in words: its tag is known, its kind has a name, and each field that has no word is blank.
fn in_words(x: Record) -> bool {
    let bare = blank(x.tag);
    match x.tag {
        1 => is_kind(TYPES, x.p.into()) && x.q == 0 && x.s == 0 && x.t == 0,
        2 | 4 | 6 => x.p == 0 && x.q == 0 && x.t == 0,
        3 => x.p <= 1 && is_kind(PATHS, x.q) && x.t == 0,
        5 => x.p == 0 && x.t == 0,
        7 | 8 | 15 => x == Record { r: x.r, ..bare },
        9 => value_in_words(x),
        10 => x.p == 0 && x.q == 0,
        11 => open_in_words(x),
        12 | 14 => x == bare,
        13 => is_kind(RULES, x.p.into()) && x == Record { p: x.p, ..bare },
        _ => false,
    }
}

/// The same of a value.
fn value_in_words(x: Record) -> bool {
    match x.p {
        0..=9 => row_of(x.s).is_none() && x.t == 0,
        10 | 11 => x.t == 0,
        12 => x.q == 0 && x.t == 0,
        13 | 14 | 16 => x.q == 0,
        15 => x.q == 0 && x.s == 0 && x.t == 0,
        _ => false,
    }
}

/// The same of an Open.
fn open_in_words(x: Record) -> bool {
    match x.p {
        0 => is_kind(TERMINALS, x.q) && x.t == 0,
        1 => x.q == 0 && x.r == 0 && x.s == 0 && x.t == 0,
        2 | 3 => x.q == 0 && x.s == 0 && x.t == 0,
        _ => false,
    }
}

/// The name of a kind of this number. A number of no kind is not in words.
fn name_of(kinds: Kinds, number: u16) -> &'static str {
    kinds.name(number).unwrap_or("")
}

/// Whether there is a kind of this number.
fn is_kind(kinds: Kinds, number: u16) -> bool {
    kinds.name(number).is_some()
}

/// The sixteen bytes in hexadecimal digits, written in one piece: a formatter takes longer over two digits than over thirty-two.
fn show_raw<W: fmt::Write>(bytes: [u8; RECORD], f: &mut fmt::Formatter<W>) -> fmt::Result {
    let mut digits = [0; 2 * RECORD];
    // neither can fail: the digits have room, and are all ASCII
    hex::encode_to_slice(bytes, &mut digits).map_err(|_| fmt::Error)?;
    let text = str::from_utf8(&digits).map_err(|_| fmt::Error)?;
    write!(f, "raw {text}")
}

/// A type: its kind, and its shape unless it is 0.
fn show_type<W: fmt::Write>(x: Record, f: &mut fmt::Formatter<W>) -> fmt::Result {
    write!(f, "type {}", name_of(TYPES, x.p.into()))?;
    if x.r != 0 {
        write!(f, " {}", x.r)?;
    }
    Ok(())
}

/// A path entry: its kind and its bits, and whether it is optional.
fn show_path<W: fmt::Write>(x: Record, f: &mut fmt::Formatter<W>) -> fmt::Result {
    write!(f, "path {} {} {}", name_of(PATHS, x.q), x.r, x.s)?;
    if x.p == 1 {
        f.write_str(" optional")?;
    }
    Ok(())
}

/// A dependency: its identifier, and its path where it has one.
fn show_dependency<W: fmt::Write>(x: Record, f: &mut fmt::Formatter<W>) -> fmt::Result {
    write!(f, "depend {}", x.r)?;
    if x.q != 0 || x.s != 0 {
        write!(f, " path {} from {}", x.q, x.s)?;
    }
    Ok(())
}

/// A value: its kind and what that kind has.
fn show_value<W: fmt::Write>(x: Record, f: &mut fmt::Formatter<W>) -> fmt::Result {
    write!(f, "value {}", name_of(VALUES, x.p.into()))?;
    match x.p {
        0..=9 => show_reads(x, f),
        10 | 11 => {
            write!(f, " {}", x.s)?;
            show_reads(x, f)
        }
        12 => write!(f, " {} {}", x.r, x.s),
        13 => write!(f, " {} {} {}", x.r, x.s, x.t),
        14 => show_inside(x, "inner", f),
        15 => write!(f, " {}", x.r),
        _ => show_inside(x, "next", f),
    }
}

/// The reads of an instruction: q of them from read r on.
fn show_reads<W: fmt::Write>(x: Record, f: &mut fmt::Formatter<W>) -> fmt::Result {
    match x.q {
        0 if x.r == 0 => Ok(()),
        1 => write!(f, " read {}", x.r),
        _ => write!(f, " reads {} from {}", x.q, x.r),
    }
}

/// A word and the row of a field after it, or nothing where the field names none.
fn show_row<W: fmt::Write>(word: &str, field: u32, f: &mut fmt::Formatter<W>) -> fmt::Result {
    match row_of(field) {
        Some(row) => write!(f, " {word} {row}"),
        None => Ok(()),
    }
}

/// A sequence or an inner instruction, and the inner instruction that comes next.
fn show_inside<W: fmt::Write>(x: Record, next: &str, f: &mut fmt::Formatter<W>) -> fmt::Result {
    write!(f, " order {} value {}", x.r, x.s)?;
    show_row(next, x.t, f)
}

/// An instruction: its order, its value, and the identifier that it is for where there is one.
fn show_add<W: fmt::Write>(x: Record, f: &mut fmt::Formatter<W>) -> fmt::Result {
    write!(f, "add {} value {}", x.r, x.s)?;
    show_row("target", x.t, f)
}

/// What opens a node.
fn show_open<W: fmt::Write>(x: Record, f: &mut fmt::Formatter<W>) -> fmt::Result {
    write!(f, "open {}", name_of(NODES, x.p.into()))?;
    match x.p {
        0 => show_terminal(x, f),
        1 => Ok(()),
        _ => write!(f, " {}", x.r),
    }
}

/// A terminal: its kind, its order, and the value that it tests where there is one.
fn show_terminal<W: fmt::Write>(x: Record, f: &mut fmt::Formatter<W>) -> fmt::Result {
    write!(f, " {} {}", name_of(TERMINALS, x.q), x.r)?;
    show_row("value", x.s, f)
}

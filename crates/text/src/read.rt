//! A line of text as its record.
//!
//! The words that a record or a value begins with are closed lists, each read in one `match`: a table of closures would list them again. The
//! record has its tag and its kind as numbers, since that is how a block has them. A function that goes on with a record that is begun
//! takes it beside the words, as the words outlive each record.

use crate::names::{NODES, PATHS, RULES, TERMINALS, TYPES, VALUES};
use crate::rows::{blank, field_of};
use crate::words::{Complaint, Expected, Words};
use block::{RECORD, Record};
use hex::FromHex;

/// The sixteen bytes of a line's record, or none where the line has no word. It is no `FromStr`, as an error of that cannot show the word
/// of the line that it is about.
pub fn read_line(line: &str) -> Result<Option<[u8; RECORD]>, Complaint<'_>> {
    let mut words = Words::from(line);
    let Some(first) = words.next() else {
        return Ok(None);
    };
    let bytes = if first == "raw" {
        read_raw(&mut words)?
    } else {
        read_record(first, &mut words)?.into()
    };
    words.end()?;
    Ok(Some(bytes))
}

/// The record that begins with this word.
fn read_record<'a>(first: &'a str, words: &mut Words<'a>) -> Result<Record, Complaint<'a>> {
    match first {
        "type" => read_type(words),
        "path" => read_path(words),
        "depend" => read_dependency(words),
        "value" => read_value(words),
        "add" => read_add(words),
        "open" => read_open(words),
        "merge" => read_merge(words),
        "close" => Ok(blank(12)),
        "list" => Ok(blank(14)),
        _ => read_numbers(first, words),
    }
}

/// The record that begins with this word, if it has numbers alone.
fn read_numbers<'a>(first: &'a str, words: &mut Words<'a>) -> Result<Record, Complaint<'a>> {
    match first {
        "identifier" => read_pair(2, "type", words),
        "scope" => Ok(Record {
            r: words.number()?,
            s: words.number()?,
            ..blank(4)
        }),
        "declare" => read_pair(6, "as", words),
        "reassign" => Ok(Record {
            r: words.number()?,
            ..blank(7)
        }),
        "read" => Ok(Record {
            r: words.number()?,
            ..blank(8)
        }),
        "shape" => Ok(Record {
            r: words.number()?,
            ..blank(15)
        }),
        _ => Err(Complaint::Unexpected {
            found: first,
            expected: Expected::Record,
        }),
    }
}

/// Two numbers with a word between them.
fn read_pair<'a>(
    tag: u8,
    between: &'static str,
    words: &mut Words<'a>,
) -> Result<Record, Complaint<'a>> {
    let r = words.number()?;
    words.word(between)?;
    let s = words.number()?;
    Ok(Record { r, s, ..blank(tag) })
}

/// A type: its kind and its shape, 0 where the line has none.
fn read_type<'a>(words: &mut Words<'a>) -> Result<Record, Complaint<'a>> {
    let p = words.kind(TYPES)? as u8;
    let r = words.last_number()?.unwrap_or(0);
    Ok(Record { p, r, ..blank(1) })
}

/// A path entry: its kind and its bits, and whether it is optional.
fn read_path<'a>(words: &mut Words<'a>) -> Result<Record, Complaint<'a>> {
    let q = words.kind(PATHS)? as u16;
    let r = words.number()?;
    let s = words.number()?;
    let p = u8::from(words.goes_on("optional")?);
    Ok(Record {
        p,
        q,
        r,
        s,
        ..blank(3)
    })
}

/// A dependency: its identifier, and its path where it has one.
fn read_dependency<'a>(words: &mut Words<'a>) -> Result<Record, Complaint<'a>> {
    let mut x = Record {
        r: words.number()?,
        ..blank(5)
    };
    if words.goes_on("path")? {
        x.q = words.short_number()?;
        words.word("from")?;
        x.s = words.number()?;
    }
    Ok(x)
}

/// A value: its kind and what that kind has.
fn read_value<'a>(words: &mut Words<'a>) -> Result<Record, Complaint<'a>> {
    let p = words.kind(VALUES)? as u8;
    let x = Record { p, ..blank(9) };
    match p {
        0..=9 => read_reads(
            Record {
                s: field_of(None),
                ..x
            },
            words,
        ),
        10 | 11 => read_reads(
            Record {
                s: words.number()?,
                ..x
            },
            words,
        ),
        12 => Ok(Record {
            r: words.number()?,
            s: words.number()?,
            ..x
        }),
        13 => Ok(Record {
            r: words.number()?,
            s: words.number()?,
            t: words.number()?,
            ..x
        }),
        14 => read_inside(x, "inner", words),
        15 => Ok(Record {
            r: words.number()?,
            ..x
        }),
        _ => read_inside(x, "next", words),
    }
}

/// The reads of an instruction.
fn read_reads<'a>(x: Record, words: &mut Words<'a>) -> Result<Record, Complaint<'a>> {
    match words.next() {
        None => Ok(x),
        Some("read") => Ok(Record {
            q: 1,
            r: words.number()?,
            ..x
        }),
        Some("reads") => {
            let q = words.short_number()?;
            words.word("from")?;
            Ok(Record {
                q,
                r: words.number()?,
                ..x
            })
        }
        Some(found) => Err(Complaint::Unexpected {
            found,
            expected: Expected::Reads,
        }),
    }
}

/// A sequence or an inner instruction, and the inner instruction that comes next.
fn read_inside<'a>(
    x: Record,
    next: &'static str,
    words: &mut Words<'a>,
) -> Result<Record, Complaint<'a>> {
    words.word("order")?;
    let r = words.number()?;
    words.word("value")?;
    let s = words.number()?;
    let t = read_row(next, words)?;
    Ok(Record { r, s, t, ..x })
}

/// The field of the row after this word, or of none where the line ends.
fn read_row<'a>(word: &'static str, words: &mut Words<'a>) -> Result<u32, Complaint<'a>> {
    let row = if words.goes_on(word)? {
        Some(words.number()?)
    } else {
        None
    };
    Ok(field_of(row))
}

/// An instruction: its order, its value, and the identifier that it is for where there is one.
fn read_add<'a>(words: &mut Words<'a>) -> Result<Record, Complaint<'a>> {
    let x = read_pair(10, "value", words)?;
    Ok(Record {
        t: read_row("target", words)?,
        ..x
    })
}

/// What opens a node.
fn read_open<'a>(words: &mut Words<'a>) -> Result<Record, Complaint<'a>> {
    let p = words.kind(NODES)? as u8;
    let x = Record { p, ..blank(11) };
    match p {
        0 => read_terminal(x, words),
        1 => Ok(x),
        _ => Ok(Record {
            r: words.number()?,
            ..x
        }),
    }
}

/// A terminal: its kind, its order, and the value that it tests where there is one.
fn read_terminal<'a>(x: Record, words: &mut Words<'a>) -> Result<Record, Complaint<'a>> {
    let q = words.kind(TERMINALS)? as u16;
    let r = words.number()?;
    let s = read_row("value", words)?;
    Ok(Record { q, r, s, ..x })
}

/// A merge by a rule.
fn read_merge<'a>(words: &mut Words<'a>) -> Result<Record, Complaint<'a>> {
    let p = words.kind(RULES)? as u8;
    Ok(Record { p, ..blank(13) })
}

/// Sixteen bytes in hexadecimal digits.
fn read_raw<'a>(words: &mut Words<'a>) -> Result<[u8; RECORD], Complaint<'a>> {
    let expected = Expected::Hex;
    let found = words.some(expected)?;
    FromHex::from_hex(found).map_err(|_| Complaint::Unexpected { found, expected })
}

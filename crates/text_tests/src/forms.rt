//! Every form of a record, as the text that is written for it and the bytes that it stands for.

use block::{RECORD, Record};
use std::alloc::Global;
use std::test::Fail;
use text::{Line, read_line};

/// No row.
const NONE: u32 = 4294967295;

/// A text is read as these fields, and is what is written for them.
fn both_ways(heap: Global, line: &str, tag: u8, p: u8, q: u16, rest: [u32; 3]) -> Result<(), Fail> {
    let [r, s, t] = rest;
    let bytes = <[u8; RECORD]>::from(Record { tag, p, q, r, s, t });
    let read = read_line(line)?.ok_or("no record")?;
    if read != bytes {
        return Err(Fail::new("the text is read as other bytes"));
    }
    let written = Line(bytes).to_string(heap)?;
    if written.as_str() != line {
        return Err(Fail::new("another text is written"));
    }
    Ok(())
}

#[test]
fn rows(rt: HostRuntime) -> Result<(), Fail> {
    let heap = rt.alloc();
    both_ways(heap, "type primitive", 1, 0, 0, [0, 0, 0])?;
    both_ways(heap, "type function 2", 1, 1, 0, [2, 0, 0])?;
    both_ways(heap, "type object 4", 1, 2, 0, [4, 0, 0])?;
    both_ways(heap, "type objectMethod", 1, 7, 0, [0, 0, 0])?;
    both_ways(heap, "identifier 7 type 2", 2, 0, 0, [7, 2, 0])?;
    both_ways(heap, "path name 12 0", 3, 0, 0, [12, 0, 0])?;
    both_ways(heap, "path number 5 6 optional", 3, 1, 1, [5, 6, 0])?;
    both_ways(heap, "scope 3 5", 4, 0, 0, [3, 5, 0])?;
    both_ways(heap, "read 3", 8, 0, 0, [3, 0, 0])?;
    both_ways(heap, "shape 9", 15, 0, 0, [9, 0, 0])
}

#[test]
fn parts(rt: HostRuntime) -> Result<(), Fail> {
    let heap = rt.alloc();
    both_ways(heap, "depend 0 path 2 from 1", 5, 0, 2, [0, 1, 0])?;
    both_ways(heap, "depend 6", 5, 0, 0, [6, 0, 0])?;
    both_ways(heap, "declare 4 as 5", 6, 0, 0, [4, 5, 0])?;
    both_ways(heap, "reassign 2", 7, 0, 0, [2, 0, 0])
}

#[test]
fn instructions(rt: HostRuntime) -> Result<(), Fail> {
    let heap = rt.alloc();
    both_ways(heap, "value other", 9, 0, 0, [0, NONE, 0])?;
    both_ways(heap, "value binary reads 2 from 3", 9, 1, 2, [3, NONE, 0])?;
    both_ways(heap, "value loadLocal read 0", 9, 5, 1, [0, NONE, 0])?;
    both_ways(heap, "value unary reads 0 from 8", 9, 9, 0, [8, NONE, 0])?;
    both_ways(heap, "value storeConst 5 read 3", 9, 10, 1, [3, 5, 0])?;
    both_ways(heap, "value storeLocal 6 read 0", 9, 11, 1, [0, 6, 0])
}

#[test]
fn other_values(rt: HostRuntime) -> Result<(), Fail> {
    let heap = rt.alloc();
    both_ways(heap, "value logical 1 2", 9, 12, 0, [1, 2, 0])?;
    both_ways(heap, "value conditional 1 2 3", 9, 13, 0, [1, 2, 3])?;
    both_ways(
        heap,
        "value sequence order 4 value 2 inner 7",
        9,
        14,
        0,
        [4, 2, 7],
    )?;
    both_ways(
        heap,
        "value sequence order 4 value 2",
        9,
        14,
        0,
        [4, 2, NONE],
    )?;
    both_ways(heap, "value optional 3", 9, 15, 0, [3, 0, 0])?;
    both_ways(
        heap,
        "value inner order 4 value 2 next 8",
        9,
        16,
        0,
        [4, 2, 8],
    )
}

#[test]
fn nodes(rt: HostRuntime) -> Result<(), Fail> {
    let heap = rt.alloc();
    both_ways(heap, "add 12 value 3 target 5", 10, 0, 0, [12, 3, 5])?;
    both_ways(heap, "add 12 value 3", 10, 0, 0, [12, 3, NONE])?;
    both_ways(heap, "open terminal if 4 value 2", 11, 0, 10, [4, 2, 0])?;
    both_ways(heap, "open terminal break 4", 11, 0, 0, [4, NONE, 0])?;
    both_ways(heap, "open terminal try 1", 11, 0, 12, [1, NONE, 0])?;
    both_ways(heap, "open arm", 11, 1, 0, [0, 0, 0])?;
    both_ways(heap, "open scope 0", 11, 2, 0, [0, 0, 0])?;
    both_ways(heap, "open pruned 1", 11, 3, 0, [1, 0, 0])?;
    both_ways(heap, "close", 12, 0, 0, [0, 0, 0])
}

#[test]
fn asks(rt: HostRuntime) -> Result<(), Fail> {
    let heap = rt.alloc();
    both_ways(heap, "merge list", 13, 0, 0, [0, 0, 0])?;
    both_ways(heap, "merge both", 13, 1, 0, [0, 0, 0])?;
    both_ways(heap, "list", 14, 0, 0, [0, 0, 0])
}

#[test]
fn raw_where_no_words_fit(rt: HostRuntime) -> Result<(), Fail> {
    let heap = rt.alloc();
    both_ways(
        heap,
        "raw 00000000000000000000000000000000",
        0,
        0,
        0,
        [0, 0, 0],
    )?;
    both_ways(
        heap,
        "raw 01080000000000000000000000000000",
        1,
        8,
        0,
        [0, 0, 0],
    )?;
    both_ways(
        heap,
        "raw 08000000030000000100000000000000",
        8,
        0,
        0,
        [3, 1, 0],
    )?;
    both_ways(
        heap,
        "raw 09000000000000000000000000000000",
        9,
        0,
        0,
        [0, 0, 0],
    )?;
    both_ways(
        heap,
        "raw 0b000d00000000000000000000000000",
        11,
        0,
        13,
        [0, 0, 0],
    )?;
    both_ways(
        heap,
        "raw ff01020304050607ffffffff0a0b0c0d",
        255,
        1,
        770,
        [117835012, NONE, 218893066],
    )
}

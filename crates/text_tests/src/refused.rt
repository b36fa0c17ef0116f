//! Lines that are not understood, with the word and what was expected, and lines that stand for no record.

use std::alloc::Global;
use std::test::Fail;
use text::read_line;

/// A line is refused with these words.
fn refused(heap: Global, line: &str, words: &str) -> Result<(), Fail> {
    let Err(complaint) = read_line(line) else {
        return Err(Fail::new("the line is understood"));
    };
    let said = complaint.to_string(heap)?;
    if said.as_str() != words {
        return Err(Fail::new("the line is refused in other words"));
    }
    Ok(())
}

#[test]
fn words_that_are_not_expected(rt: HostRuntime) -> Result<(), Fail> {
    let heap = rt.alloc();
    refused(
        heap,
        "scope 3 x",
        "x is not understood, expected a number from 0 to 4294967295",
    )?;
    refused(
        heap,
        "scope 3",
        "the line ends too early, expected a number from 0 to 4294967295",
    )?;
    refused(
        heap,
        "scope 3 5 7",
        "7 is not understood, expected the end of the line",
    )?;
    refused(
        heap,
        "read 4294967296",
        "4294967296 is not understood, expected a number from 0 to 4294967295",
    )?;
    refused(
        heap,
        "identifier 7 typ 2",
        "typ is not understood, expected the word type",
    )?;
    refused(
        heap,
        "add 1 value 2 to 3",
        "to is not understood, expected the word target or the end of the line",
    )?;
    refused(
        heap,
        "depend 0 path 70000 from 1",
        "70000 is not understood, expected a number from 0 to 65535",
    )?;
    refused(
        heap,
        "open door",
        "door is not understood, expected terminal, arm, scope or pruned",
    )?;
    refused(
        heap,
        "raw 12",
        "12 is not understood, expected 32 hexadecimal digits",
    )?;
    refused(
        heap,
        "raw 0000000000000000000000000000000g",
        "0000000000000000000000000000000g is not understood, expected 32 hexadecimal digits",
    )
}

#[test]
fn kinds_that_are_expected(rt: HostRuntime) -> Result<(), Fail> {
    let heap = rt.alloc();
    refused(
        heap,
        "type array",
        "array is not understood, expected primitive, function, object, var, poly, phi, property or objectMethod",
    )?;
    refused(
        heap,
        "path key 1 0",
        "key is not understood, expected name or number",
    )?;
    refused(
        heap,
        "value call",
        "call is not understood, expected a kind of value, as other, binary, computedLoad, jsxText, loadGlobal, loadLocal, primitive, propertyLoad, template, unary, storeConst, storeLocal, logical, conditional, sequence, optional or inner",
    )?;
    refused(
        heap,
        "open terminal goto 1",
        "goto is not understood, expected break, continue, return, throw, switch, doWhile, while, for, forOf, forIn, if, label or try",
    )
}

#[test]
fn lines_of_no_record(rt: HostRuntime) -> Result<(), Fail> {
    assert!(rt; read_line("")?.is_none());
    assert!(rt; read_line("   \t ")?.is_none());
    assert!(rt; read_line("# a comment")?.is_none());
    assert!(rt; read_line("  # read 3")?.is_none());
    Ok(())
}

#[test]
fn comments_and_spaces_do_not_count(rt: HostRuntime) -> Result<(), Fail> {
    let plain = read_line("read 3")?;
    assert!(rt; plain.is_some());
    assert!(rt; read_line("  read\t 3   # the third")? == plain);
    assert!(rt; read_line("read 3#")? == plain);
    assert!(rt; read_line("read 0003")? == plain);
    Ok(())
}

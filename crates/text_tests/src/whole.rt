//! Whole texts and the blocks of a file.

use block::Unchecked;
use encode::{Page, fill_block, fill_blocks, records_of, round_trip};
use std::alloc::Global;
use std::test::Fail;
use text::{Listing, read_text};

/// So many Close records.
fn closes(heap: Global, count: usize) -> Result<Vec<[u8; 16]>, Fail> {
    let mut record = [0; 16];
    record[0] = 12;
    Ok(vec![in heap; record; count]?)
}

/// The text of the block that begins with these bytes.
fn shown(heap: Global, bytes: &[u8], place: u64) -> Result<String, Fail> {
    let page = Page::of(heap, bytes, place)?;
    Ok(Listing(&page).to_string(heap)?)
}

#[test]
fn no_records_no_block(rt: HostRuntime) -> Result<(), Fail> {
    let heap = rt.alloc();
    assert!(rt; fill_blocks(heap, &[])?.is_empty());
    assert!(rt; shown(heap, &[], 0)?.is_empty());
    Ok(())
}

#[test]
fn thirty_one_records_to_a_block(rt: HostRuntime) -> Result<(), Fail> {
    let heap = rt.alloc();
    let one = fill_blocks(heap, closes(heap, 31)?.as_slice())?;
    assert!(rt; one.len() == 512);
    let two = fill_blocks(heap, closes(heap, 32)?.as_slice())?;
    assert!(rt; two.len() == 1024);
    let last = shown(heap, &two.as_slice()[512..1024], 1)?;
    assert!(rt; last.as_str() == "# block 1, 1 record\nclose\n");
    Ok(())
}

#[test]
fn blocks_that_are_not_good(rt: HostRuntime) -> Result<(), Fail> {
    let heap = rt.alloc();
    let mut bytes = [0; 512];
    fill_block(&[], 1, &mut bytes);
    let number = shown(heap, &bytes, 0)?;
    assert!(rt; number.as_str() == "# block 0 is not good: its number is not its place\n");
    let short = shown(heap, &bytes[0..511], 1)?;
    assert!(rt; short.as_str() == "# block 1 is not good: the bytes end before the block does\n");
    bytes[3] = 1;
    let differs = shown(heap, &bytes, 1)?;
    assert!(rt; differs.as_str() == "# block 1 is not good: its check differs from its bytes\n");
    Ok(())
}

#[test]
fn a_block_written_again(rt: HostRuntime) -> Result<(), Fail> {
    let heap = rt.alloc();
    let mut bytes = [0; 512];
    fill_block(closes(heap, 3)?.as_slice(), 0, &mut bytes);
    let unchecked = Unchecked::new(&bytes, 0).ok_or("no block")?;
    let block = unchecked.check()?;
    let mut again = [0; 512];
    let written = round_trip(heap, &block, 0, &mut again);
    let records = records_of(heap, &block);
    block.next_place();
    written?;
    assert!(rt; records?.len() == 3);
    assert!(rt; again == bytes);
    Ok(())
}

#[test]
fn a_text_with_its_bad_line(rt: HostRuntime) -> Result<(), Fail> {
    let heap = rt.alloc();
    assert!(rt; read_text(heap, "# top\n\nlist\nclose # end\n")?.len() == 2);
    let Err(error) = read_text(heap, "list\n\nmerge all\n") else {
        return Err(Fail::new("the text is understood"));
    };
    let said = error.to_string(heap)?;
    assert!(rt; said.as_str() == "line 3: all is not understood, expected list or both");
    Ok(())
}

//! The small screen, damaged and mended.

use crate::built::{build, told};
use crate::cases::CASES;
use programs::{Lent, Memory};
use std::test::Fail;

#[test]
fn damaged_and_mended(rt: HostRuntime) -> Result<(), Fail> {
    let mut memory = Memory::new(rt.alloc())?;
    let Lent {
        mut sheet,
        mut work,
    } = memory.lend();
    build(&mut sheet, &mut work)?;
    for (damage, refusal) in CASES {
        damage.apply(&mut sheet)?;
        assert_eq!(rt; told(&mut sheet, &mut work), refusal);
    }
    Ok(())
}

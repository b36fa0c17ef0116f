//! The edges of each rule, asked of the code.

use crate::both_ways::BothWaysRule;
use crate::list::ListRule;
use crate::own_shapes::OwnShapes;
use crate::read::Entries;
use crate::rule::Rule;
use screen::{DependencyRow, IdentifierRow, PathRow, ShapeRow, TypeKind};
use std::test::Fail;

/// The kind of a Function's type.
const FUNCTION: u8 = TypeKind::Function as u8;

/// The kind of an Object's type.
const OBJECT: u8 = TypeKind::Object as u8;

const IDENTIFIERS: [IdentifierRow; 2] = [
    IdentifierRow {
        declaration: 7,
        typ: 0,
    },
    IdentifierRow {
        declaration: 8,
        typ: 0,
    },
];

/// A path entry, and four that each differ from it in one field.
const PATHS: [PathRow; 5] = [
    PathRow {
        low: 3,
        high: 4,
        kind: 1,
        optional: 0,
    },
    PathRow {
        low: 3,
        high: 4,
        kind: 1,
        optional: 1,
    },
    PathRow {
        low: 3,
        high: 4,
        kind: 0,
        optional: 0,
    },
    PathRow {
        low: 9,
        high: 4,
        kind: 1,
        optional: 0,
    },
    PathRow {
        low: 3,
        high: 9,
        kind: 1,
        optional: 0,
    },
];

const ENTRIES: Entries<'static> = Entries {
    identifiers: &IDENTIFIERS,
    paths: &PATHS,
};

/// One shape more than is kept.
const SHAPES: [ShapeRow; 17] = [
    ShapeRow { shape: 100 },
    ShapeRow { shape: 101 },
    ShapeRow { shape: 102 },
    ShapeRow { shape: 103 },
    ShapeRow { shape: 104 },
    ShapeRow { shape: 105 },
    ShapeRow { shape: 106 },
    ShapeRow { shape: 107 },
    ShapeRow { shape: 108 },
    ShapeRow { shape: 109 },
    ShapeRow { shape: 110 },
    ShapeRow { shape: 111 },
    ShapeRow { shape: 112 },
    ShapeRow { shape: 113 },
    ShapeRow { shape: 114 },
    ShapeRow { shape: 115 },
    ShapeRow { shape: 116 },
];

fn entry(identifier: u32, first: u32, length: u16) -> DependencyRow {
    DependencyRow {
        identifier,
        first,
        length,
    }
}

/// Whether two lists of one entry are the same under both rules, or under neither.
fn agree(x: DependencyRow, y: DependencyRow, answer: bool, what: &str) -> Result<(), Fail> {
    if ListRule.same(ENTRIES, &[x], &[y]) != answer {
        return Err(Fail::new(what));
    }
    if BothWaysRule.same(ENTRIES, &[x], &[y]) != answer {
        return Err(Fail::new(what));
    }
    Ok(())
}

#[test]
fn one_entry() -> Result<(), Fail> {
    agree(entry(0, 0, 1), entry(0, 0, 1), true, "the same entry")?;
    agree(entry(0, 0, 1), entry(1, 0, 1), false, "declaration")?;
    agree(entry(0, 0, 1), entry(0, 1, 1), false, "optional mark")?;
    agree(entry(0, 0, 1), entry(0, 2, 1), false, "kind")?;
    agree(entry(0, 0, 1), entry(0, 3, 1), false, "low half")?;
    agree(entry(0, 0, 1), entry(0, 4, 1), false, "high half")?;
    agree(entry(0, 0, 1), entry(0, 0, 2), false, "longer path")?;
    agree(entry(0, 0, 0), entry(0, 3, 0), true, "no path")
}

#[test]
fn rows_not_put() -> Result<(), Fail> {
    agree(
        entry(2, 0, 0),
        entry(4294967295, 0, 0),
        true,
        "both read as declaration 0",
    )?;
    agree(
        entry(0, 4, 1),
        entry(0, 4, 9),
        true,
        "cut at the end of the table",
    )?;
    agree(
        entry(0, 5, 1),
        entry(0, 4294967295, 65535),
        true,
        "nothing there",
    )
}

#[test]
fn empty_and_longer(rt: HostRuntime) {
    let x = entry(0, 0, 0);
    let y = entry(1, 0, 0);
    assert!(rt; ListRule.same(ENTRIES, &[], &[]));
    assert!(rt; BothWaysRule.same(ENTRIES, &[], &[]));
    assert!(rt; !ListRule.same(ENTRIES, &[], &[x]));
    assert!(rt; !BothWaysRule.same(ENTRIES, &[], &[x]));
    assert!(rt; !ListRule.same(ENTRIES, &[x], &[x, x]), "lengths count");
    assert!(rt;
        BothWaysRule.same(ENTRIES, &[x], &[x, x]),
        "lengths do not count"
    );
    assert!(rt; ListRule.same(ENTRIES, &[x, y], &[y, x]));
    assert!(rt; BothWaysRule.same(ENTRIES, &[x, y], &[y, x]));
}

#[test]
fn lasting_kinds(rt: HostRuntime) {
    assert!(rt; ListRule.lasting(FUNCTION, 0) && BothWaysRule.lasting(FUNCTION, 9));
    assert!(rt; !ListRule.lasting(OBJECT, 0) && !BothWaysRule.lasting(OBJECT, 0));
    assert!(rt; ListRule.lasting(OBJECT, 1) && BothWaysRule.lasting(OBJECT, 1));
    assert!(rt; ListRule.lasting(OBJECT, 4) && BothWaysRule.lasting(OBJECT, 4));
    assert!(rt; !ListRule.lasting(OBJECT, 5) && !BothWaysRule.lasting(OBJECT, 5));
    assert!(rt; !ListRule.lasting(0, 1) && !BothWaysRule.lasting(3, 4));
}

#[test]
fn sixteen_own_shapes(rt: HostRuntime) {
    let layer = OwnShapes::new(&SHAPES, ListRule);
    assert!(rt; layer.lasting(OBJECT, 100) && layer.lasting(OBJECT, 115));
    assert!(rt; !layer.lasting(OBJECT, 116), "the seventeenth is not kept");
    assert!(rt; !layer.lasting(3, 100), "no Object");
    assert!(rt;
        layer.lasting(OBJECT, 4) && layer.lasting(FUNCTION, 0),
        "the rule below"
    );
    assert!(rt;
        !OwnShapes::new(&[], ListRule).lasting(OBJECT, 0),
        "none kept"
    );
}

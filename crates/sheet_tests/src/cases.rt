//! Fields of the small screen, written one after the other, and what a Close is refused with after each: `Unsound` while the tables are not sound, `Place` as only the body is open.

use crate::damage::Damage;
use crate::damage::Damage::*;
use screen::Refusal::{Place, Unsound};
use screen::{NONE, Refusal};

pub const CASES: [(Damage, Option<Refusal>); 54] = [
    // rows of zeros up to the limit are types; no count passes it
    (Types(256), Some(Place)),
    (Types(257), Some(Unsound)),
    (Types(u32::MAX), Some(Unsound)),
    (Types(1), Some(Place)),
    // the body is always put
    (Nodes(0), Some(Unsound)),
    (Nodes(1025), Some(Unsound)),
    (Nodes(4), Some(Place)),
    // a row that is not put may hold anything
    (Kind(1, 8), Some(Place)),
    (Types(2), Some(Unsound)),
    (Kind(1, 7), Some(Place)),
    // a value's child: itself, a later row, none at all
    (Child(1, 1), Some(Unsound)),
    (Child(1, 2), Some(Unsound)),
    (Child(1, NONE), Some(Unsound)),
    (Child(1, 0), Some(Place)),
    // value 0 has two users, value 1 and node 2
    (Value(2, 0), Some(Unsound)),
    (Value(2, 1), Some(Place)),
    // siblings in a ring of one, in a ring of two, another's child, rows that are not put
    (Next(3, 3), Some(Unsound)),
    (Next(3, 1), Some(Unsound)),
    (Next(3, 2), Some(Unsound)),
    (Next(3, 4), Some(Unsound)),
    (Next(3, 4_000_000_000), Some(Unsound)),
    (Next(3, NONE), Some(Place)),
    // a holder that is the node itself, its child, its sibling, none
    (Parent(1, 1), Some(Unsound)),
    (Parent(1, 2), Some(Unsound)),
    (Parent(1, 3), Some(Unsound)),
    (Parent(1, NONE), Some(Unsound)),
    (Parent(1, 0), Some(Place)),
    // a last child that is not the last
    (Last(0, 1), Some(Unsound)),
    (Last(0, NONE), Some(Unsound)),
    (Last(0, 3), Some(Place)),
    // open: a Scope that is no last child, an instruction, a row that is not put
    (Innermost(1), Some(Unsound)),
    (Innermost(2), Some(Unsound)),
    (Innermost(4), Some(Unsound)),
    (Innermost(0), Some(Place)),
    // a Scope whose node is in the tree stands, and no other status is one
    (Status(1, 0), Some(Unsound)),
    (Status(1, 2), Some(Unsound)),
    (Status(1, 3), Some(Unsound)),
    (Status(1, 4), Some(Unsound)),
    (Status(1, 1), Some(Place)),
    // a Scope that stands is in no merged list
    (Merged(0, 1), Some(Unsound)),
    (Merged(0, NONE), Some(Place)),
    // one declaration in two lists
    (First(1, 0), Some(Unsound)),
    (First(1, 1), Some(Place)),
    // declarations in a ring, in two lists, a row that is not put
    (Declared(0, 0), Some(Unsound)),
    (Declared(0, 1), Some(Unsound)),
    (Declared(0, 2), Some(Unsound)),
    (Declared(0, NONE), Some(Place)),
    // both dependencies may be either Scope's, but each is one Scope's
    (Begin(1, 0), Some(Place)),
    (Begin(1, 2), Some(Place)),
    (Begin(1, 3), Some(Unsound)),
    (Begin(1, 1), Some(Place)),
    (Begin(0, 1), Some(Unsound)),
    (Begin(0, 0), Some(Place)),
    // the last Scope open again, as before its Close, which now is accepted
    (Innermost(3), None),
];

//! The rows that never change once they are put. Each has the fields of its record, as plain numbers of fixed width, for a row's number and a kind too:
//! their layout is what a host lends, and it may hand over any bits.

ghost use Rattle.std.specs.Prelude.{◌≡◌};
ghost use Rattle.block.specs.declared.record.Record.{Record as Fields};
ghost use Rattle.screen.specs.Records.{type_record, identifier_record, path_record, dependency_record, read_record, value_record, shape_record};

use block::Record;

/// None, where a field of a record or of a lent row may name a row or not; `optional` makes an `Option` of such a field.
pub const NONE: u32 = 4294967295;

/// A type: 0 Primitive to 7 ObjectMethod, and its shape (0 none, 1 to 4 built in, above that the host's).
#[derive(Clone, Copy, Debug, Default, PartialEq, Eq)]
pub struct TypeRow {
    pub shape: u32,
    pub kind: u8,
}

/// An identifier: its declaration and its type's row.
#[derive(Clone, Copy, Debug, Default, PartialEq, Eq)]
pub struct IdentifierRow {
    pub declaration: u32,
    pub typ: u32,
}

/// An entry of a path: 0 a name or 1 a number, the low and the high half of it, and 1 where it is optional.
#[derive(Clone, Copy, Debug, Default, PartialEq, Eq)]
pub struct PathRow {
    pub low: u32,
    pub high: u32,
    pub kind: u16,
    pub optional: u8,
}

/// A dependency: its identifier, and `length` path entries from `first` on.
#[derive(Clone, Copy, Debug, Default, PartialEq, Eq)]
pub struct DependencyRow {
    pub identifier: u32,
    pub first: u32,
    pub length: u16,
}

/// A read of an identifier.
#[derive(Clone, Copy, Debug, Default, PartialEq, Eq)]
pub struct ReadRow {
    pub identifier: u32,
}

/// A value, with the fields of its record; `Value` says what they are at each kind.
#[derive(Clone, Copy, Debug, Default, PartialEq, Eq)]
pub struct ValueRow {
    pub r: u32,
    pub s: u32,
    pub t: u32,
    pub q: u16,
    pub kind: u8,
}

/// A shape of the host's own.
#[derive(Clone, Copy, Debug, Default, PartialEq, Eq)]
pub struct ShapeRow {
    pub shape: u32,
}

/// A row that a record put: its fields must keep that record's list. The rows differ in nothing but the fields that they keep of it.
pub trait Row {
    /// The record that would put it as it stands.
    ghost made: { Self → Fields };

    /// That record.
    fn record(&self) -> Record
        ensures { result ≡ made self.now };
}

impl Row for TypeRow {
    ghost made = { type_record };

    fn record(&self) -> Record {
        Record {
            tag: 1,
            p: self.kind,
            r: self.shape,
            ..Record::default()
        }
    }
}

impl Row for IdentifierRow {
    ghost made = { identifier_record };

    fn record(&self) -> Record {
        Record {
            tag: 2,
            r: self.declaration,
            s: self.typ,
            ..Record::default()
        }
    }
}

impl Row for PathRow {
    ghost made = { path_record };

    fn record(&self) -> Record {
        Record {
            tag: 3,
            p: self.optional,
            q: self.kind,
            r: self.low,
            s: self.high,
            ..Record::default()
        }
    }
}

impl Row for DependencyRow {
    ghost made = { dependency_record };

    fn record(&self) -> Record {
        Record {
            tag: 5,
            q: self.length,
            r: self.identifier,
            s: self.first,
            ..Record::default()
        }
    }
}

impl Row for ReadRow {
    ghost made = { read_record };

    fn record(&self) -> Record {
        Record {
            tag: 8,
            r: self.identifier,
            ..Record::default()
        }
    }
}

impl Row for ValueRow {
    ghost made = { value_record };

    fn record(&self) -> Record {
        Record {
            tag: 9,
            p: self.kind,
            q: self.q,
            r: self.r,
            s: self.s,
            t: self.t,
        }
    }
}

impl Row for ShapeRow {
    ghost made = { shape_record };

    fn record(&self) -> Record {
        Record {
            tag: 15,
            r: self.shape,
            ..Record::default()
        }
    }
}

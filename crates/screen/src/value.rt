//! What a value is, read off the fields of its row.

ghost use Rattle.std.specs.Prelude.{◌≡◌};
ghost use Rattle.screen.specs.Values.{optional, value_of, children_of};

use crate::id::{IdentifierId, ReadId, ValueId};
use crate::rows::{NONE, ValueRow};

/// The reads of an instruction: `count` of them from read `first` on. No slice, since the table of reads is the sheet's.
#[derive(Clone, Copy, Debug, PartialEq, Eq)]
pub struct Reads {
    pub first: ReadId,
    pub count: u16,
}

/// A value by its kind.
#[derive(Clone, Copy, Debug, PartialEq, Eq)]
pub enum Value {
    /// An instruction that is none of those below.
    Other(Reads),
    /// BinaryExpression to UnaryExpression, but LoadLocal.
    Simple(Reads),
    LoadLocal(Reads),
    /// A StoreLocal of kind Const.
    StoreConst {
        reads: Reads,
        stored: IdentifierId,
    },
    /// Another StoreLocal.
    StoreLocal {
        reads: Reads,
        stored: IdentifierId,
    },
    Logical {
        left: ValueId,
        right: ValueId,
    },
    Conditional {
        test: ValueId,
        consequent: ValueId,
        alternate: ValueId,
    },
    Sequence {
        order: u32,
        value: ValueId,
        first: Option<ValueId>,
    },
    Optional {
        value: ValueId,
    },
    /// An instruction inside a sequence.
    Inner {
        order: u32,
        value: ValueId,
        next: Option<ValueId>,
    },
}

/// A row that a field names, or none.
pub fn optional(field: u32) -> Option<u32>
    ensures { result ≡ optional field }
{
    if field == NONE { None } else { Some(field) }
}

impl From<ValueRow> for Value {
    ghost from_gives = { λ row value. value ≡ value_of row };

    /// What a row's fields say, whose kind is 0 to 16.
    #[tactic(auto, unfolding(crate::specs::Values::value_of))]
    fn from(row: ValueRow) -> Value {
        let reads = Reads {
            first: ReadId::from(row.r),
            count: row.q,
        };
        match row.kind {
            0 => Value::Other(reads),
            5 => Value::LoadLocal(reads),
            10 => Value::StoreConst {
                reads,
                stored: IdentifierId::from(row.s),
            },
            11 => Value::StoreLocal {
                reads,
                stored: IdentifierId::from(row.s),
            },
            12 => Value::Logical {
                left: ValueId::from(row.r),
                right: ValueId::from(row.s),
            },
            13 => Value::Conditional {
                test: ValueId::from(row.r),
                consequent: ValueId::from(row.s),
                alternate: ValueId::from(row.t),
            },
            14 => Value::Sequence {
                order: row.r,
                value: ValueId::from(row.s),
                first: optional(row.t).map(ValueId::from),
            },
            15 => Value::Optional {
                value: ValueId::from(row.r),
            },
            16 => Value::Inner {
                order: row.r,
                value: ValueId::from(row.s),
                next: optional(row.t).map(ValueId::from),
            },
            _ => Value::Simple(reads),
        }
    }
}

impl Value {
    /// The values that it names: up to three that it computes with, and last the inner instruction.
    pub fn children(self) -> [Option<ValueId>; 4]
        ensures { result ≡ children_of self }
    {
        match self {
            Value::Other(_) | Value::Simple(_) | Value::LoadLocal(_) => [None, None, None, None],
            Value::StoreConst { .. } | Value::StoreLocal { .. } => [None, None, None, None],
            Value::Logical { left, right } => [Some(left), Some(right), None, None],
            Value::Conditional {
                test,
                consequent,
                alternate,
            } => [Some(test), Some(consequent), Some(alternate), None],
            Value::Sequence { value, first, .. } => [Some(value), None, None, first],
            Value::Optional { value } => [Some(value), None, None, None],
            Value::Inner { value, next, .. } => [Some(value), None, None, next],
        }
    }
}

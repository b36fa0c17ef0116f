//! A record of sixteen bytes and its fields.

ghost use Rattle.std.specs.Prelude.{◌≡◌};
ghost use Rattle.block.specs.Fields.{Joins, fields_of};

use crate::layout::RECORD;

/// A record's fields as they came, before anything is known of them.
#[derive(Clone, Copy, Debug, Default, PartialEq, Eq)]
pub struct Record {
    pub tag: u8,
    pub p: u8,
    pub q: u16,
    pub r: u32,
    pub s: u32,
    pub t: u32,
}

impl From<[u8; RECORD]> for Record {
    ghost from_gives = { λ bytes x. x ≡ fields_of bytes };

    /// Takes the sixteen bytes apart.
    fn from(bytes: [u8; RECORD]) -> Record {
        Record {
            tag: bytes[0],
            p: bytes[1],
            q: u16::from_le_bytes([bytes[2], bytes[3]]),
            r: u32::from_le_bytes([bytes[4], bytes[5], bytes[6], bytes[7]]),
            s: u32::from_le_bytes([bytes[8], bytes[9], bytes[10], bytes[11]]),
            t: u32::from_le_bytes([bytes[12], bytes[13], bytes[14], bytes[15]]),
        }
    }
}

impl From<Record> for [u8; RECORD] {
    ghost from_gives = { λ x bytes. Joins x bytes };

    /// The sixteen bytes whose fields these are.
    fn from(x: Record) -> [u8; RECORD] {
        let [q0, q1] = x.q.to_le_bytes();
        let [r0, r1, r2, r3] = x.r.to_le_bytes();
        let [s0, s1, s2, s3] = x.s.to_le_bytes();
        let [t0, t1, t2, t3] = x.t.to_le_bytes();
        [
            x.tag, x.p, q0, q1, r0, r1, r2, r3, s0, s1, s2, s3, t0, t1, t2, t3,
        ]
    }
}

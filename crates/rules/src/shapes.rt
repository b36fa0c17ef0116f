//! The host's own shapes, at most sixteen.

ghost use Rattle.std.specs.Prelude.{◌≡◌, min, length, take};
ghost use Rattle.screen.specs.Lists.{member};
ghost use Rattle.rules.specs.Kept.{kept_in, shapes_of};

use screen::ShapeRow;

/// How many shapes are kept at most: as many as a sheet may have. Crate `sheet` has the same limit, and the rules stand on `screen` alone.
pub const MOST: usize = 16;

/// Up to sixteen shapes; the first `count` are kept. An array and a count, since a rule is held and copied by value: a vector of fixed room is
/// not `Copy`, and sixteen places that may be empty take twice the room and are all passed where one shape is kept.
#[derive(Clone, Copy, Debug, PartialEq, Eq)]
pub struct Shapes {
    pub kept: [u32; MOST],
    pub count: u8,
}

/// The shapes of the first sixteen rows, and zeros where there are fewer.
fn copied(rows: &[ShapeRow]) -> [u32; MOST]
    ensures { take (min (length rows.now) 16) result ≡ shapes_of rows.now }
{
    let count = rows.len().min(MOST);
    let mut all = [0; MOST];
    // `array::from_fn` would fill and test all sixteen places, however few rows there are
    for i in 0..count {
        all[i] = rows[i].shape;
    }
    all
}

/// Whether a shape is among these.
fn has_shape(shapes: &[u32], shape: u32) -> bool
    ensures { result ≡ member shape shapes.now }
{
    // `contains` and `any` take up to three times as long over the few shapes that there are
    for own in shapes {
        if *own == shape {
            return true;
        }
    }
    false
}

impl From<&[ShapeRow]> for Shapes {
    ghost from_gives = { λ rows shapes. kept_in shapes ≡ shapes_of rows.now };

    /// The shapes of a sheet's rows, of which sixteen are kept.
    fn from(rows: &[ShapeRow]) -> Shapes {
        Shapes {
            kept: copied(rows),
            count: rows.len().min(MOST) as u8,
        }
    }
}

impl Shapes {
    /// Whether a shape is kept.
    #[tactic(auto, using(crate::proofs::Parts::first_read))]
    pub fn has(&self, shape: u32) -> bool
        ensures { result ≡ member shape (kept_in self.now) }
    {
        let places = &self.kept[..];
        has_shape(
            places.get(..usize::from(self.count)).unwrap_or(places),
            shape,
        )
    }
}

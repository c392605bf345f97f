//! Points and offsets.

ghost use Rattle.std.specs.Prelude.{◌≡◌};
ghost use Rattle.lot_geom.specs.Offset.{moved as moved_in, opposite as opposite_of};

use crate::number::{negated, sum};
use lot_types::Point;

/// The offset in the other direction.
pub(crate) fn opposite(p: Point) -> Point
    ensures { result ≡ opposite_of p }
{
    Point {
        x: negated(p.x),
        y: negated(p.y),
    }
}

/// The point at an offset from another, limited to the range.
pub fn moved(p: Point, by: Point) -> Point
    ensures { result ≡ moved_in p by }
{
    Point {
        x: sum(p.x, by.x),
        y: sum(p.y, by.y),
    }
}

//! Cubic curves of contours.
ghost use Rattle.std.specs.Prelude.{◌≡◌};
ghost use Rattle.lot_types.specs.Segments.{straight};

use crate::{Duplicate, Memory, Point};

/// A cubic curve from the end of the curve before it.
#[derive(Clone, Copy)]
pub struct Seg {
    /// The first control point.
    pub c1: Point,
    /// The second control point.
    pub c2: Point,
    pub end: Point,
}

impl Seg {
    /// The straight segment from one point to another.
    pub fn straight(from: Point, to: Point) -> Seg
        ensures { result ≡ straight from to }
    {
        let c2 = to;
        Seg {
            c1: from,
            c2,
            end: to,
        }
    }
}

impl Duplicate for Seg {
    fn copy(&self) -> Result<Seg, Memory> {
        Ok(*self)
    }
}

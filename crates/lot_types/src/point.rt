//! Points.
ghost use Rattle.std.specs.Prelude.{◌≡◌};
ghost use Rattle.lot_types.specs.Points.{point};

use crate::Fx;

/// A position, an offset or a size in the plane, in millionths of a pixel, or a scale, in millionths of a per cent. `x`
/// points to the right and `y` down.
#[derive(Clone, Copy)]
pub struct Point {
    pub x: Fx,
    pub y: Fx,
}

impl Point {
    /// The point of two coordinates.
    pub fn at(x: Fx, y: Fx) -> Point
        ensures { result ≡ point x y }
    {
        Point { x, y }
    }
}

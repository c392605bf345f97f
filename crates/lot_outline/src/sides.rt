//! Sides of boxes.
ghost use Rattle.std.specs.Prelude.{◌≡◌};
ghost use Rattle.lot_outline.specs.Sides.{sides_around, inset};

use crate::number::{minus, plus};
use lot_types::{Fx, Point};

/// The sides of a box along the axes, in millionths of a pixel, each limited to the range. The y axis points down.
#[derive(Clone, Copy)]
pub(crate) struct Sides {
    pub left: Fx,
    pub right: Fx,
    pub top: Fx,
    pub bottom: Fx,
}

impl Sides {
    /// Those at the distances `rx` and `ry` from a center.
    pub(crate) fn around(center: &Point, rx: Fx, ry: Fx) -> Sides
        ensures { result ≡ sides_around center.now rx ry }
    {
        Sides {
            left: minus(center.x, rx),
            right: plus(center.x, rx),
            top: minus(center.y, ry),
            bottom: plus(center.y, ry),
        }
    }

    /// Each moved inwards.
    pub(crate) fn inset(&self, by: Fx) -> Sides
        ensures { result ≡ inset self.now by }
    {
        Sides {
            left: plus(self.left, by),
            right: minus(self.right, by),
            top: plus(self.top, by),
            bottom: minus(self.bottom, by),
        }
    }
}

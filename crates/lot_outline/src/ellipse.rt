//! Ellipses.
ghost use Rattle.std.specs.Prelude.{◌≡◌, IfOk};
ghost use Rattle.lot_outline.specs.Ellipse.{ellipse as ellipse_in, quarters as quarters_in};

use crate::arc::arc_handle;
use crate::closed::{closed, curve};
use crate::number::half;
use crate::sides::Sides;
use lot_types::{Contour, Memory, Point, Seg};
use std::alloc::Global;

/// The ellipse about the center `p` of the size `s`, in millionths of a pixel: a closed contour, clockwise from the
/// top, after the Lottie Specification 1.0, "Ellipse".
///
/// A size counts by its magnitude. Want of memory is the one refusal.
#[tactic(auto, unfolding(crate::specs::Ellipse::ellipse))]
pub(crate) fn ellipse(alloc: Global, p: Point, s: Point) -> Result<Contour, Memory>
    ensures { IfOk result (λ made. made ≡ ellipse_in p s) }
{
    let (rx, ry) = (half(s.x), half(s.y));
    let sides = Sides::around(&p, rx, ry);
    let handles = Sides::around(&p, arc_handle(rx), arc_handle(ry));
    closed(
        alloc,
        Point::at(p.x, sides.top),
        &quarters(&p, &sides, &handles),
    )
}

/// Four quarters about the center `p` within the sides `b`, clockwise from the top, by control points on the lines
/// `h`.
#[tactic(auto, unfolding(crate::specs::Ellipse::quarters))]
fn quarters(p: &Point, b: &Sides, h: &Sides) -> [Seg; 4]
    ensures { result ≡ quarters_in p.now b.now h.now }
{
    [
        curve(
            Point::at(h.right, b.top),
            Point::at(b.right, h.top),
            Point::at(b.right, p.y),
        ),
        curve(
            Point::at(b.right, h.bottom),
            Point::at(h.right, b.bottom),
            Point::at(p.x, b.bottom),
        ),
        curve(
            Point::at(h.left, b.bottom),
            Point::at(b.left, h.bottom),
            Point::at(b.left, p.y),
        ),
        curve(
            Point::at(b.left, h.top),
            Point::at(h.left, b.top),
            Point::at(p.x, b.top),
        ),
    ]
}

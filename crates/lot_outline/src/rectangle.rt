//! Rectangles.
ghost use Rattle.std.specs.Prelude.{◌≡◌, IfOk};
ghost use Rattle.lot_outline.specs.Rectangle.{rectangle as rectangle_in, corner_radius as corner_radius_in, sharp as sharp_in, sharp_segs as sharp_segs_in, rounded as rounded_in, rounded_segs as rounded_segs_in};

use crate::arc::arc_handle;
use crate::closed::{closed, curve};
use crate::number::{half, minus, smaller};
use crate::sides::Sides;
use lot_types::{Contour, Fx, Memory, Point, Seg};
use std::alloc::Global;

/// The rectangle about the center `p` of the size `s`, with corners of the radius `r`, in millionths of a pixel: a
/// closed contour, clockwise, after the Lottie Specification 1.0, "Rectangle". It starts at the right upper corner, or
/// below it where the corners are rounded.
///
/// A size counts by its magnitude. The radius is limited to 0 and the half of the shorter side. Want of memory is the
/// one refusal.
#[tactic(auto, unfolding(crate::specs::Rectangle::rectangle))]
pub(crate) fn rectangle(alloc: Global, p: Point, s: Point, r: Fx) -> Result<Contour, Memory>
    ensures { IfOk result (λ made. made ≡ rectangle_in p s r) }
{
    let sides = Sides::around(&p, half(s.x), half(s.y));
    let radius = corner_radius(s, r);
    if radius.get() == 0 {
        sharp(alloc, &sides)
    } else {
        rounded(alloc, &sides, radius)
    }
}

/// The radius of the corners of a rectangle of the size `s`.
#[tactic(auto, unfolding(crate::specs::Rectangle::corner_radius))]
fn corner_radius(s: Point, r: Fx) -> Fx
    ensures { result ≡ corner_radius_in s r }
{
    let greatest = smaller(half(s.x), half(s.y));
    if r.get() < 0 {
        return Fx::ZERO;
    }
    smaller(r, greatest)
}

/// The rectangle with these sides, without rounded corners.
fn sharp(alloc: Global, sides: &Sides) -> Result<Contour, Memory>
    ensures { IfOk result (λ made. made ≡ sharp_in sides.now) }
{
    closed(alloc, Point::at(sides.right, sides.top), &sharp_segs(sides))
}

/// The rectangle with these sides and corners of a radius above 0.
fn rounded(alloc: Global, sides: &Sides, radius: Fx) -> Result<Contour, Memory>
    ensures { IfOk result (λ made. made ≡ rounded_in sides.now radius) }
{
    let corners = sides.inset(radius);
    let handles = sides.inset(minus(radius, arc_handle(radius)));
    closed(
        alloc,
        Point::at(sides.right, corners.top),
        &rounded_segs(sides, &corners, &handles),
    )
}

/// From the right upper corner, clockwise.
fn sharp_segs(b: &Sides) -> [Seg; 4]
    ensures { result ≡ sharp_segs_in b.now }
{
    [
        Seg::straight(Point::at(b.right, b.top), Point::at(b.right, b.bottom)),
        Seg::straight(Point::at(b.right, b.bottom), Point::at(b.left, b.bottom)),
        Seg::straight(Point::at(b.left, b.bottom), Point::at(b.left, b.top)),
        Seg::straight(Point::at(b.left, b.top), Point::at(b.right, b.top)),
    ]
}

/// From below the right upper corner, clockwise: straight along the sides `b` as far as the lines `i`, which are the
/// radius further in, and round each corner by control points on the lines `h`.
#[tactic(auto, unfolding(crate::specs::Rectangle::rounded_segs))]
fn rounded_segs(b: &Sides, i: &Sides, h: &Sides) -> [Seg; 8]
    ensures { result ≡ rounded_segs_in b.now i.now h.now }
{
    [
        Seg::straight(Point::at(b.right, i.top), Point::at(b.right, i.bottom)),
        curve(
            Point::at(b.right, h.bottom),
            Point::at(h.right, b.bottom),
            Point::at(i.right, b.bottom),
        ),
        Seg::straight(Point::at(i.right, b.bottom), Point::at(i.left, b.bottom)),
        curve(
            Point::at(h.left, b.bottom),
            Point::at(b.left, h.bottom),
            Point::at(b.left, i.bottom),
        ),
        Seg::straight(Point::at(b.left, i.bottom), Point::at(b.left, i.top)),
        curve(
            Point::at(b.left, h.top),
            Point::at(h.left, b.top),
            Point::at(i.left, b.top),
        ),
        Seg::straight(Point::at(i.left, b.top), Point::at(i.right, b.top)),
        curve(
            Point::at(h.right, b.top),
            Point::at(b.right, h.top),
            Point::at(b.right, i.top),
        ),
    ]
}

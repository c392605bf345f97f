//! The paint of solid layers.
ghost use Rattle.std.specs.Prelude.{◌≡◌, IfOk};
ghost use Rattle.lot_comp.specs.Piece.{solid_contour as contour_in, solid_paint as paint_in};

use lot_types::{Brush, Contour, Fx, Ink, Matrix, Memory, Paint, Point, Rgb, Seg, Seq};
use std::alloc::Global;

/// A rectangle of `w` by `h` millionths of a pixel, whose left upper corner is the origin, filled with a color. Want
/// of memory is the one refusal.
pub(crate) fn solid_paint(alloc: Global, w: Fx, h: Fx, rgb: Rgb) -> Result<Paint, Memory>
    ensures { IfOk result (λ p. p ≡ paint_in w h rgb) }
{
    let mut contours = Seq::with_capacity(alloc, 1)?;
    contours.push(rectangle(alloc, w, h)?)?;
    Ok(Paint {
        ink: Ink::Flat(rgb),
        brush: Brush::Fill { even_odd: false },
        opacity: Fx::ONE,
        matrix: Matrix::IDENTITY,
        contours,
    })
}

/// The closed contour (0, 0), (w, 0), (w, h), (0, h).
fn rectangle(alloc: Global, w: Fx, h: Fx) -> Result<Contour, Memory>
    ensures { IfOk result (λ made. made ≡ contour_in w h) }
{
    let zero = Fx::ZERO;
    let mut segs = Seq::with_capacity(alloc, 4)?;
    segs.push(Seg::straight(Point::at(zero, zero), Point::at(w, zero)))?;
    segs.push(Seg::straight(Point::at(w, zero), Point::at(w, h)))?;
    segs.push(Seg::straight(Point::at(w, h), Point::at(zero, h)))?;
    segs.push(Seg::straight(Point::at(zero, h), Point::at(zero, zero)))?;
    Ok(Contour {
        closed: true,
        start: Point::at(zero, zero),
        segs,
    })
}

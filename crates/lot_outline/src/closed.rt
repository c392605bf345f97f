//! Closed contours and their segments.
ghost use Rattle.std.specs.Prelude.{◌≡◌, IfOk};
ghost use Rattle.lot_outline.specs.Closed.{curved as curved_in, closed as closed_in};

use lot_types::{Contour, Memory, Point, Seg, Seq};
use std::alloc::Global;

/// The closed contour of these segments. Want of memory is the one refusal.
pub(crate) fn closed(alloc: Global, start: Point, segs: &[Seg]) -> Result<Contour, Memory>
    ensures { IfOk result (λ made. made ≡ closed_in start segs.now) }
{
    let segs = list_of(alloc, segs)?;
    Ok(Contour {
        closed: true,
        start,
        segs,
    })
}

/// The list of these segments.
fn list_of(alloc: Global, segs: &[Seg]) -> Result<Seq<Seg>, Memory>
    ensures { IfOk result (λ made. made ≡ segs.now) }
{
    let mut made = Seq::with_capacity(alloc, segs.len())?;
    for seg in segs {
        made.push(*seg)?;
    }
    Ok(made)
}

/// The segment by two control points to an end.
pub(crate) fn curve(c1: Point, c2: Point, end: Point) -> Seg
    ensures { result ≡ curved_in c1 c2 end }
{
    Seg { c1, c2, end }
}

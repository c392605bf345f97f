//! The contours of paths.

ghost use Rattle.std.specs.Prelude.{◌≡◌, ◌<◌, IfOk, length};
ghost use Rattle.lot_geom.specs.Path.{path_contours as contours_in, curve_between as curve_in, segs_of, vertices_of, vertex_at};

use crate::offset::moved;
use lot_types::{Bezier, Contour, Memory, Point, Seg, Seq};
use std::alloc::Global;

/// The contours of a path: none for a path without vertices, else one, from the first vertex through the others, and
/// back to the first where the path is closed. Control points are limited to the range. Want of memory is the one
/// refusal.
#[tactic(auto, unfolding(crate::specs::Path::path_contours))]
pub fn path_contours(alloc: Global, b: &Bezier) -> Result<Seq<Contour>, Memory>
    ensures { IfOk result (λ made. made ≡ contours_in b.now) }
{
    let mut made = Seq::new(alloc);
    if let [start, ..] = b.v.items() {
        let segs = curves(alloc, b)?;
        made.push(Contour {
            closed: b.closed,
            start: *start,
            segs,
        })?;
    }
    Ok(made)
}

/// The curves of a path with vertices: from each vertex to the next, and from the last to the first where the path is
/// closed.
fn curves(alloc: Global, b: &Bezier) -> Result<Seq<Seg>, Memory>
    requires { 0 < length b.now.v }
    ensures { IfOk result (λ made. made ≡ segs_of b.now.closed (vertices_of b.now)) }
{
    let n = b.v.items().len();
    let mut made = Seq::with_capacity(alloc, n)?;
    for to in 1..n {
        made.push(curve_between(b, to - 1, to))?;
    }
    if b.closed {
        made.push(curve_between(b, n - 1, 0))?;
    }
    Ok(made)
}

/// The curve from one vertex to another.
fn curve_between(b: &Bezier, from: usize, to: usize) -> Seg
    requires from { from < length b.now.v }
    requires to { to < length b.now.v }
    ensures { result ≡ curve_in (vertex_at b.now from) (vertex_at b.now to) }
{
    let (v, i, o) = (b.v.items(), b.i.items(), b.o.items());
    Seg {
        c1: moved(v[from], o[from]),
        c2: moved(v[to], i[to]),
        end: v[to],
    }
}

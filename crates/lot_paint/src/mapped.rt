//! The contours that a style paints.
ghost use Rattle.std.specs.Prelude.{◌≡◌, ◌++◌, length, map, IfOk, OnOk};
ghost use Rattle.lot_paint.specs.Contours.{mapped_seg as seg_in, mapped_contour as contour_in, mapped_contours, painted_contours as painted_in};
ghost use Rattle.lot_types.specs.Painting.{IsWithin};

use lot_geom::apply;
use lot_types::{Contour, Matrix, Memory, Outline, Painted, Seg, Seq};
use std::alloc::Global;

/// The contours of the leaves that a style paints, in order, each mapped from the space of its leaf to that of the
/// style. Coordinates are limited to the range. Want of memory is the one refusal.
pub(crate) fn painted_contours(
    alloc: Global,
    at: &Painted,
    leaves: &Seq<Outline>,
) -> Result<Seq<Contour>, Memory>
    requires { IsWithin (length leaves.now) at.now }
    ensures { IfOk result (λ made. made ≡ painted_in at.now leaves.now) }
{
    let maps = at.maps.items();
    let mut made = Seq::new(alloc);
    for (i, leaf) in leaves.items()[at.from..at.to].iter().enumerate() {
        put_leaf(alloc, &mut made, leaf, &maps[i])?;
    }
    Ok(made)
}

/// Puts the mapped contours of a leaf at the end.
fn put_leaf(
    alloc: Global,
    made: &mut Seq<Contour>,
    leaf: &Outline,
    m: &Matrix,
) -> Result<(), Memory>
    ensures { OnOk result (made.new ≡ made.old ++ mapped_contours (leaf.now, m.now)) }
{
    for contour in leaf.contours.items() {
        made.push(mapped_contour(alloc, m, contour)?)?;
    }
    Ok(())
}

fn mapped_contour(alloc: Global, m: &Matrix, c: &Contour) -> Result<Contour, Memory>
    ensures { IfOk result (λ made. made ≡ contour_in m.now c.now) }
{
    let segs = mapped_segs(alloc, m, c.segs.items())?;
    Ok(Contour {
        closed: c.closed,
        start: apply(*m, c.start),
        segs,
    })
}

fn mapped_segs(alloc: Global, m: &Matrix, segs: &[Seg]) -> Result<Seq<Seg>, Memory>
    ensures { IfOk result (λ made. made ≡ map (seg_in m.now) segs.now) }
{
    let mut made = Seq::with_capacity(alloc, segs.len())?;
    for s in segs {
        made.push(mapped_seg(m, s))?;
    }
    Ok(made)
}

fn mapped_seg(m: &Matrix, s: &Seg) -> Seg
    ensures { result ≡ seg_in m.now s.now }
{
    Seg {
        c1: apply(*m, s.c1),
        c2: apply(*m, s.c2),
        end: apply(*m, s.end),
    }
}

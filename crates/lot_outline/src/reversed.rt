//! Contours that run the other way.
ghost use Rattle.std.specs.Prelude.{◌≡◌, ◌<◌, IfOk, map, length, take, slice_get, Some};
ghost use Rattle.lot_outline.specs.Reversed.{reversed as reversed_in, segs_back as segs_back_in, seg_back as seg_back_in, end_of as end_in, is_reverse as is_reverse_in, directed as directed_in};

use lot_types::{Contour, Fx, Memory, Point, Seg, Seq};
use std::alloc::Global;

/// The direction `d` of shapes that run the other way: 3, in millionths.
const REVERSE: i64 = 3_000_000;

/// The contours of a shape in its direction `d`, after the Lottie Specification 1.0, "Shape Direction": where that is 3
/// they run the other way. Want of memory is the one refusal.
#[tactic(auto, unfolding(crate::specs::Reversed::directed))]
pub(crate) fn directed(
    alloc: Global,
    contours: Seq<Contour>,
    d: Option<Fx>,
) -> Result<Seq<Contour>, Memory>
    ensures { IfOk result (λ made. made ≡ directed_in d contours) }
{
    if is_reverse(d) {
        return all_reversed(alloc, contours.items());
    }
    Ok(contours)
}

/// The direction `d` is 3.
fn is_reverse(d: Option<Fx>) -> bool
    ensures { result ≡ is_reverse_in d }
{
    match d {
        Some(d) => d.get() == REVERSE,
        None => false,
    }
}

/// The contours, each the other way.
fn all_reversed(alloc: Global, contours: &[Contour]) -> Result<Seq<Contour>, Memory>
    ensures { IfOk result (λ made. made ≡ map reversed_in contours.now) }
{
    let mut made = Seq::with_capacity(alloc, contours.len())?;
    for contour in contours {
        made.push(reversed(alloc, contour)?)?;
    }
    Ok(made)
}

/// The contour the other way. It starts where the other one ends; a closed one so has the same start.
#[tactic(auto, unfolding(crate::specs::Reversed::reversed))]
fn reversed(alloc: Global, c: &Contour) -> Result<Contour, Memory>
    ensures { IfOk result (λ made. made ≡ reversed_in c.now) }
{
    let forward = c.segs.items();
    let segs = segs_back(alloc, &c.start, forward)?;
    Ok(Contour {
        closed: c.closed,
        start: end_of(&c.start, forward),
        segs,
    })
}

/// Where segments from `p` end.
fn end_of(p: &Point, segs: &[Seg]) -> Point
    ensures { result ≡ end_in p.now segs.now }
{
    match segs {
        [.., last] => last.end,
        [] => *p,
    }
}

/// Segments from `p`, back to there: the last one first.
fn segs_back(alloc: Global, p: &Point, segs: &[Seg]) -> Result<Seq<Seg>, Memory>
    ensures { IfOk result (λ made. made ≡ segs_back_in p.now segs.now) }
{
    let mut made = Seq::with_capacity(alloc, segs.len())?;
    let mut at = segs.len();
    while at > 0 {
        at -= 1;
        let end = end_of(p, &segs[..at]);
        made.push(seg_back(end, &segs[at]))?;
    }
    Ok(made)
}

/// The segment that starts at `p`, from its end back to there.
fn seg_back(p: Point, seg: &Seg) -> Seg
    ensures { result ≡ seg_back_in p seg.now }
{
    Seg {
        c1: seg.c2,
        c2: seg.c1,
        end: p,
    }
}

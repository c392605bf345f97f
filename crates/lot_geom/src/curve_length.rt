//! The lengths of curves.

ghost use Rattle.std.specs.Prelude.{◌≡◌, ◌*◌, ◌≤◌, IfOk};
ghost use Rattle.lot_geom.specs.Chords.{max_chord_length};
ghost use Rattle.lot_geom.specs.Lengths.{curve_length as curve_length_in, curve_of as curve_in, segment_lengths, measuring_chords};

use crate::chord::{chord_end, pass_chord};
use crate::cubic::Cubic;
use lot_types::{Contour, Memory, Point, Seg, Seq};
use std::alloc::Global;

/// The number of chords by which a segment is measured.
pub(crate) const MEASURING_CHORDS: u32 = 64;

/// The length of each segment of a contour, in millionths of a pixel: the sum of the lengths of 64 chords, each rounded
/// down. Want of memory is the one refusal.
#[tactic(auto, unfolding(crate::specs::Lengths::segment_lengths))]
pub fn lengths(alloc: Global, c: &Contour) -> Result<Seq<u64>, Memory>
    ensures { IfOk result (λ made. made ≡ segment_lengths c.now) }
{
    let segs = c.segs.items();
    let mut made = Seq::with_capacity(alloc, segs.len())?;
    let mut start = c.start;
    for s in segs {
        made.push(curve_length(&curve_of(start, s)))?;
        start = s.end;
    }
    Ok(made)
}

/// A segment of a contour as a curve, from where the one before it ends.
pub fn curve_of(start: Point, s: &Seg) -> Cubic
    ensures { result ≡ curve_in start s.now }
{
    Cubic {
        p0: start,
        p1: s.c1,
        p2: s.c2,
        p3: s.end,
    }
}

/// The length of a curve, in millionths of a pixel.
#[tactic(auto, unfolding(crate::specs::Lengths::curve_length))]
fn curve_length(c: &Cubic) -> u64
    ensures value { result ≡ curve_length_in c.now }
    ensures small { result ≤ measuring_chords * max_chord_length }
{
    let mut length = 0;
    let mut at = chord_end(c, MEASURING_CHORDS, 0);
    for k in 0..MEASURING_CHORDS {
        length += pass_chord(c, MEASURING_CHORDS, k, &mut at);
    }
    length
}

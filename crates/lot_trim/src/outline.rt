//! What is kept of the outlines of a run.
ghost use Rattle.std.specs.Prelude.{◌≡◌, ◌≤◌, IfOk, map, OnOk};
ghost use Rattle.lot_trim.specs.Kept.{kept_contours as kept_contours_in, kept_outlines as kept_outlines_in};
ghost use Rattle.lot_trim.specs.Run.{max_run_length, end_of_contours, outline_lengths, run_lengths};

use crate::interval::Interval;
use crate::placed_contour::PlacedContour;
use crate::run::OutlineLengths;
use lot_types::{Contour, Memory, Outline, Seq};
use std::alloc::Global;

/// What the intervals keep of the contours of an outline, which begins at the length `start` of the run. `start`
/// becomes the length at which it ends. Want of memory is the one refusal.
pub(crate) fn kept_contours(
    alloc: Global,
    intervals: &[Interval],
    o: &Outline,
    lengths: &OutlineLengths,
    start: &mut u128,
) -> Result<Seq<Contour>, Memory>
    requires start { start.old ≤ max_run_length }
    requires lengths { lengths.now ≡ outline_lengths o.now }
    ensures kept { IfOk result (λ made.
        made ≡ kept_contours_in intervals.now start.old o.now.contours) }
    ensures end { OnOk result (start.new ≡ end_of_contours start.old lengths.now) }
    ensures small { OnOk result (start.new ≤ max_run_length) }
{
    let lengths = lengths.items();
    let mut made = Seq::new(alloc);
    for (k, c) in o.contours.items().iter().enumerate() {
        let placed = PlacedContour {
            contour: c,
            lengths: lengths[k].items(),
            start: *start,
        };
        placed.put_kept(alloc, intervals, &mut made)?;
        *start = placed.end();
    }
    Ok(made)
}

/// What the intervals keep of the outlines of a run. Want of memory is the one refusal.
pub(crate) fn kept_outlines(
    alloc: Global,
    intervals: &[Interval],
    os: &[Outline],
    lengths: &Seq<OutlineLengths>,
) -> Result<Seq<Outline>, Memory>
    requires { lengths.now ≡ run_lengths os.now }
    ensures { IfOk result (λ made. made ≡ kept_outlines_in intervals.now 0 os.now) }
{
    let lengths = lengths.items();
    let mut made = Seq::with_capacity(alloc, os.len())?;
    let mut start = 0;
    for (k, o) in os.iter().enumerate() {
        let contours = kept_contours(alloc, intervals, o, &lengths[k], &mut start)?;
        made.push(Outline { contours })?;
    }
    Ok(made)
}

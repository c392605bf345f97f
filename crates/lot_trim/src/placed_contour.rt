//! Contours at their place in a run.
ghost use Rattle.std.specs.Prelude.{◌≡◌, ◌≤◌, ◌+◌, ◌++◌, nat_lt, flat_map, map, IfOk, OnOk};
ghost use Rattle.std.specs.List.{list_any};
ghost use Rattle.lot_geom.specs.Lengths.{curve_length, curves_of, segment_lengths};
ghost use Rattle.lot_trim.specs.Kept.{part_in, parts_in, open_contour, cut_contour, is_whole as is_whole_in, kept_of, seg_of, lies_in as lies_in_interval};
ghost use Rattle.lot_trim.specs.Run.{max_run_length, end_of_segments as end_in};

use crate::interval::Interval;
use crate::run::{end_of_segments, length_sum};
use lot_geom::{Cubic, curve_of, part_between};
use lot_types::{Contour, Duplicate, Memory, Seg, Seq};
use std::alloc::Global;

/// A contour of a run.
#[derive(Clone, Copy)]
pub(crate) struct PlacedContour<'a> {
    pub contour: &'a Contour,
    /// The length of each of its segments.
    pub lengths: &'a [u64],
    /// The length of the run before it.
    pub start: u128,
}

impl<'a> PlacedContour<'a> {
    /// Where it ends in the run.
    pub(crate) fn end(&self) -> u128
        requires { self.now.start ≤ max_run_length }
        ensures value { result ≡ end_in self.now.start self.now.lengths.now }
        ensures small { result ≤ max_run_length }
    {
        end_of_segments(self.start, self.lengths)
    }

    /// Puts what the intervals keep of it at the end of `made`. Want of memory is the one refusal.
    #[tactic(auto, unfolding(crate::specs::Kept::kept_of, crate::specs::Kept::cut_contour))]
    pub(crate) fn put_kept(
        &self,
        alloc: Global,
        intervals: &[Interval],
        made: &mut Seq<Contour>,
    ) -> Result<(), Memory>
        requires start { self.now.start ≤ max_run_length }
        requires lengths { self.now.lengths.now ≡ segment_lengths self.now.contour.now }
        ensures { OnOk result (made.new ≡ made.old ++
            kept_of intervals.now self.now.start self.now.contour.now) }
    {
        if self.is_whole(intervals) {
            return made.push(self.contour.copy()?);
        }
        if self.contour.closed {
            self.put_joined(alloc, intervals, made)
        } else {
            self.put_apart(alloc, intervals, made)
        }
    }

    /// Whether it has a positive length and lies whole in one of the intervals.
    #[tactic(auto, unfolding(crate::specs::Kept::is_whole))]
    fn is_whole(&self, intervals: &[Interval]) -> bool
        requires { self.now.start ≤ max_run_length }
        ensures { result ≡ is_whole_in intervals.now self.now.start self.now.lengths.now }
    {
        let end = self.end();
        has_length(self.lengths) && lies_in_one(self.start, end, intervals)
    }

    /// Puts one open contour of the parts in all intervals.
    fn put_joined(
        &self,
        alloc: Global,
        intervals: &[Interval],
        made: &mut Seq<Contour>,
    ) -> Result<(), Memory>
        requires start { self.now.start ≤ max_run_length }
        requires lengths { self.now.lengths.now ≡ segment_lengths self.now.contour.now }
        ensures { OnOk result (made.new ≡ made.old ++ open_contour
            (flat_map (λ i. parts_in i self.now.start (curves_of self.now.contour.now)) intervals.now)) }
    {
        let mut parts = Vec::new(alloc);
        for i in intervals {
            self.put_parts(*i, &mut parts)?;
        }
        put_open(alloc, &parts, made)
    }

    /// Puts an open contour of the parts in each interval.
    fn put_apart(
        &self,
        alloc: Global,
        intervals: &[Interval],
        made: &mut Seq<Contour>,
    ) -> Result<(), Memory>
        requires start { self.now.start ≤ max_run_length }
        requires lengths { self.now.lengths.now ≡ segment_lengths self.now.contour.now }
        ensures { OnOk result (made.new ≡ made.old ++ flat_map
            (λ i. open_contour (parts_in i self.now.start (curves_of self.now.contour.now))) intervals.now) }
    {
        for i in intervals {
            let mut parts = Vec::new(alloc);
            self.put_parts(*i, &mut parts)?;
            put_open(alloc, &parts, made)?;
        }
        Ok(())
    }

    /// Puts the parts of its segments that lie in an interval at the end of `parts`.
    fn put_parts(&self, i: Interval, parts: &mut Vec<Cubic>) -> Result<(), Memory>
        requires start { self.now.start ≤ max_run_length }
        requires lengths { self.now.lengths.now ≡ segment_lengths self.now.contour.now }
        ensures { OnOk result (parts.new.items ≡ parts.old.items ++
            parts_in i self.now.start (curves_of self.now.contour.now)) }
    {
        let mut at = self.contour.start;
        let mut from = self.start;
        for (k, s) in self.contour.segs.items().iter().enumerate() {
            let length = self.lengths[k];
            put_part(i, from, &curve_of(at, s), length, parts)?;
            at = s.end;
            from = length_sum(from, length);
        }
        Ok(())
    }
}

/// Whether some length is positive.
fn has_length(lengths: &[u64]) -> bool
    ensures { result ≡ list_any (nat_lt 0) lengths.now }
{
    lengths.iter().any(|length| *length > 0)
}

/// Whether what is between two lengths of a run lies in one of the intervals.
fn lies_in_one(from: u128, to: u128, intervals: &[Interval]) -> bool
    ensures { result ≡ list_any (lies_in_interval from to) intervals.now }
{
    intervals.iter().any(|i| i.from <= from && to <= i.to)
}

/// Puts the part of a curve that lies in an interval at the end of `parts`, where it has a positive length. The curve
/// begins at the length `start` of the run.
#[tactic(auto, unfolding(crate::specs::Kept::part_in))]
fn put_part(
    i: Interval,
    start: u128,
    c: &Cubic,
    length: u64,
    parts: &mut Vec<Cubic>,
) -> Result<(), Memory>
    requires start { start ≤ max_run_length }
    requires length { length ≡ curve_length c.now }
    ensures { OnOk result (parts.new.items ≡ parts.old.items ++ part_in i start c.now) }
{
    let from = i.from.max(start);
    let to = i.to.min(length_sum(start, length));
    if from < to {
        parts.push(part_between(c, length, (from - start) as u64, (to - start) as u64))?;
    }
    Ok(())
}

/// Puts an open contour of curves at the end of `made`, of which each begins where the one before it ends. Without
/// curves there is none.
#[tactic(auto, unfolding(crate::specs::Kept::open_contour))]
fn put_open(alloc: Global, curves: &[Cubic], made: &mut Seq<Contour>) -> Result<(), Memory>
    ensures { OnOk result (made.new ≡ made.old ++ open_contour curves.now) }
{
    let [first, ..] = curves else {
        return Ok(());
    };
    let segs = segs_of(alloc, curves)?;
    made.push(Contour {
        closed: false,
        start: first.p0,
        segs,
    })
}

/// The curves as segments.
fn segs_of(alloc: Global, curves: &[Cubic]) -> Result<Seq<Seg>, Memory>
    ensures { IfOk result (λ made. made ≡ map seg_of curves.now) }
{
    let mut made = Seq::with_capacity(alloc, curves.len())?;
    for c in curves {
        made.push(Seg {
            c1: c.p1,
            c2: c.p2,
            end: c.p3,
        })?;
    }
    Ok(made)
}

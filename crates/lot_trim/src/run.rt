//! The lengths of runs.
ghost use Rattle.std.specs.Prelude.{◌≡◌, ◌≤◌, fold, IfOk};
ghost use Rattle.lot_trim.specs.Run.{max_run_length, length_sum as length_sum_in, end_of_segments as end_of_segments_in, end_of_contours as end_of_contours_in, outline_lengths as outline_lengths_in, run_lengths as run_lengths_in};

use lot_geom::lengths;
use lot_types::{Memory, Outline, Seq};
use std::alloc::Global;

/// Sums of lengths are limited to it.
const MAX_RUN_LENGTH: u128 = 1_000_000_000_000_000_000_000_000_000_000;

/// The lengths of the segments of each contour of an outline.
pub(crate) type OutlineLengths = Seq<Seq<u64>>;

/// Measures each segment of an outline. Want of memory is the one refusal.
pub(crate) fn outline_lengths(alloc: Global, o: &Outline) -> Result<OutlineLengths, Memory>
    ensures { IfOk result (λ made. made ≡ outline_lengths_in o.now) }
{
    let contours = o.contours.items();
    let mut made = Seq::with_capacity(alloc, contours.len())?;
    for c in contours {
        made.push(lengths(alloc, c)?)?;
    }
    Ok(made)
}

/// Measures each segment of the outlines of a run. Want of memory is the one refusal.
pub(crate) fn run_lengths(alloc: Global, os: &[Outline]) -> Result<Seq<OutlineLengths>, Memory>
    ensures { IfOk result (λ made. made ≡ run_lengths_in os.now) }
{
    let mut made = Seq::with_capacity(alloc, os.len())?;
    for o in os {
        made.push(outline_lengths(alloc, o)?)?;
    }
    Ok(made)
}

/// A length of a run and a length after it, limited.
pub(crate) fn length_sum(start: u128, length: u64) -> u128
    requires { start ≤ max_run_length }
    ensures value { result ≡ length_sum_in start length }
    ensures small { result ≤ max_run_length }
{
    (start + length as u128).min(MAX_RUN_LENGTH)
}

/// Where segments end that begin at `start`.
#[tactic(auto, unfolding(crate::specs::Run::end_of_segments))]
pub(crate) fn end_of_segments(start: u128, lengths: &[u64]) -> u128
    requires { start ≤ max_run_length }
    ensures value { result ≡ end_of_segments_in start lengths.now }
    ensures small { result ≤ max_run_length }
{
    let mut end = start;
    for length in lengths {
        end = length_sum(end, *length);
    }
    end
}

/// Where contours end that begin at `start`.
#[tactic(auto, unfolding(crate::specs::Run::end_of_contours))]
pub(crate) fn end_of_contours(start: u128, lengths: &[Seq<u64>]) -> u128
    requires { start ≤ max_run_length }
    ensures value { result ≡ end_of_contours_in start lengths.now }
    ensures small { result ≤ max_run_length }
{
    let mut end = start;
    for contour in lengths {
        end = end_of_segments(end, contour.items());
    }
    end
}

/// The length of a run of outlines with these lengths.
pub(crate) fn end_of_outlines(lengths: &[OutlineLengths]) -> u128
    ensures value { result ≡ fold end_of_contours_in 0 lengths.now }
    ensures small { result ≤ max_run_length }
{
    let mut end = 0;
    for outline in lengths {
        end = end_of_contours(end, outline.items());
    }
    end
}

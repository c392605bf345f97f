//! Trims of outlines.
ghost use Rattle.std.specs.Prelude.{◌≡◌, [], ◌∷◌, map, IfOk};
ghost use Rattle.lot_trim.specs.Trim.{trimmed_run, trimmed_each, without_contours as without_contours_in};

use crate::cut::{TrimCut, WHOLE_RUN};
use crate::outline::{kept_contours, kept_outlines};
use crate::run::{end_of_contours, end_of_outlines, outline_lengths, run_lengths};
use lot_types::{Duplicate, Memory, Outline, Seq};
use std::alloc::Global;

/// What a trim leaves of outlines of which each is measured by itself. Want of memory is the one refusal.
///
/// Each segment is measured once. One in which an interval ends is measured again up to there.
#[tactic(auto, unfolding(crate::specs::Trim::trimmed_each))]
pub fn trim_parallel(alloc: Global, os: &Seq<Outline>, cut: TrimCut) -> Result<Seq<Outline>, Memory>
    ensures { IfOk result (λ made. made ≡ trimmed_each cut os.now) }
{
    let mut made = Seq::with_capacity(alloc, os.items().len())?;
    for o in os.items() {
        made.push(trim_alone(alloc, o, cut)?)?;
    }
    Ok(made)
}

/// What a trim leaves of outlines that are measured as one run, one after the other. Want of memory is the one refusal.
///
/// Each segment is measured once. One in which an interval ends is measured again up to there.
#[tactic(auto, unfolding(crate::specs::Trim::trimmed_run, crate::specs::Run::run_length))]
pub fn trim_sequential(
    alloc: Global,
    os: &Seq<Outline>,
    cut: TrimCut,
) -> Result<Seq<Outline>, Memory>
    ensures { IfOk result (λ made. made ≡ trimmed_run cut os.now) }
{
    let width = cut.width();
    if width == 0 {
        return without_contours(alloc, os.items());
    }
    if width == WHOLE_RUN {
        return os.copy();
    }
    let lengths = run_lengths(alloc, os.items())?;
    let intervals = cut.intervals(alloc, end_of_outlines(lengths.items()))?;
    kept_outlines(alloc, intervals.items(), os.items(), &lengths)
}

/// What a trim leaves of an outline that is a run of its own.
#[tactic(auto, unfolding(crate::specs::Trim::trimmed_run, crate::specs::Run::run_length))]
fn trim_alone(alloc: Global, o: &Outline, cut: TrimCut) -> Result<Outline, Memory>
    ensures { IfOk result (λ made. made ∷ [] ≡ trimmed_run cut (o.now ∷ [])) }
{
    let width = cut.width();
    if width == 0 {
        return Ok(Outline {
            contours: Seq::new(alloc),
        });
    }
    if width == WHOLE_RUN {
        return o.copy();
    }
    let lengths = outline_lengths(alloc, o)?;
    let intervals = cut.intervals(alloc, end_of_contours(0, lengths.items()))?;
    let mut start = 0;
    let contours = kept_contours(alloc, intervals.items(), o, &lengths, &mut start)?;
    Ok(Outline { contours })
}

/// As many outlines without contours.
fn without_contours(alloc: Global, os: &[Outline]) -> Result<Seq<Outline>, Memory>
    ensures { IfOk result (λ made. made ≡ map without_contours_in os.now) }
{
    let mut made = Seq::with_capacity(alloc, os.len())?;
    for _ in os {
        made.push(Outline {
            contours: Seq::new(alloc),
        })?;
    }
    Ok(made)
}

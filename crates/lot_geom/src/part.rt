//! Parts of curves between two lengths.

ghost use Rattle.std.specs.Prelude.{◌≡◌, ◌+◌, ◌-◌, ◌*◌, ◌<◌, ◌≤◌, ℕ};
ghost use Rattle.lot_geom.specs.Chords.{length_of_chord, length_of_chords, max_chord_length};
ghost use Rattle.lot_geom.specs.Lengths.{curve_length, part_between as part_in, parameter_at as parameter_in, measuring_chords, steps_of_chord};
ghost use Rattle.lot_num.specs.Easing.{grid_steps};
ghost use Rattle.lot_num.specs.Round.{nearest};

use crate::chord::{chord_end, pass_chord};
use crate::cubic::{Cubic, GRID_STEPS, split};
use crate::curve_length::MEASURING_CHORDS;
use lot_num::rnd_div;

/// The number of steps of the grid of parameters that each chord has.
const STEPS_OF_CHORD: u32 = 1024;

/// The part of a curve from the length `from` to the length `to`, both from the start of the curve and in millionths
/// of a pixel. `length` is that of the curve, as [`crate::lengths`] measures it.
///
/// Between the ends of its 64 chords a parameter is in proportion to the length, rounded to steps of 65,536. `from`
/// is at most `to`, and `to` at most `length`. It takes no memory.
#[tactic(auto, unfolding(crate::specs::Lengths::part_between))]
pub fn part_between(c: &Cubic, length: u64, from: u64, to: u64) -> Cubic
    requires whole { length ≡ curve_length c.now }
    requires ordered { from ≤ to }
    requires within { to ≤ length }
    ensures { result ≡ part_in c.now from to }
{
    let first = parameter_at(c, length, from);
    let last = parameter_at(c, length, to);
    split(c, first, last)
}

/// The parameter at the length `x` from the start of a curve, as a step of the grid of 65,536.
fn parameter_at(c: &Cubic, length: u64, x: u64) -> u32
    requires whole { length ≡ curve_length c.now }
    requires within { x ≤ length }
    ensures value { result ≡ parameter_in c.now x }
    ensures small { result ≤ grid_steps }
{
    if x == 0 {
        return 0;
    }
    if x == length {
        return GRID_STEPS;
    }
    let found = ChordAt::of(c, x);
    STEPS_OF_CHORD * found.before + found.steps_until(x)
}

/// A chord on which a length is reached.
#[derive(Clone, Copy)]
struct ChordAt {
    /// The number of the chords before it.
    before: u32,
    /// Their length.
    start: u64,
    /// Its own length.
    length: u64,
}

impl ChordAt {
    /// The first chord on which the length `x` is reached.
    fn of(c: &Cubic, x: u64) -> ChordAt
        requires within { x ≤ curve_length c.now }
        ensures within { result.before < measuring_chords }
        ensures start { result.start ≡ length_of_chords c.now measuring_chords result.before }
        ensures length { result.length ≡ length_of_chord c.now measuring_chords result.before }
        ensures reaches { x ≤ result.start + result.length }
        ensures short { result.length ≤ max_chord_length }
        ensures first { (k : ℕ) → k < result.before →
            length_of_chords c.now measuring_chords (k + 1) < x }
    {
        let mut start = 0;
        let mut at = chord_end(c, MEASURING_CHORDS, 0);
        for before in 0..MEASURING_CHORDS {
            let length = pass_chord(c, MEASURING_CHORDS, before, &mut at);
            if x <= start + length {
                return ChordAt {
                    before,
                    start,
                    length,
                };
            }
            start += length;
        }
        unreachable!()
    }

    /// The number of steps on this chord until the length `x` is reached.
    fn steps_until(&self, x: u64) -> u32
        requires positive { 0 < self.now.length }
        requires short { self.now.length ≤ max_chord_length }
        requires from { self.now.start ≤ x }
        requires to { x ≤ self.now.start + self.now.length }
        ensures value { result ≡ nearest (steps_of_chord * (x - self.now.start)) self.now.length }
        ensures small { result ≤ steps_of_chord }
    {
        let steps = STEPS_OF_CHORD as u64 * (x - self.start);
        rnd_div(steps as i128, self.length as i128).unsigned_abs() as u32
    }
}

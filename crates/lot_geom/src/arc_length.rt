//! Points at a fraction of the length of a curve.

ghost use Rattle.std.specs.Prelude.{◌≡◌, ◌+◌, ◌*◌, ◌^◌, ◌<◌, ◌≤◌, ◌+ℤ◌, ◌-ℤ◌, ◌*ℤ◌, ℕ, slice_index, pos, unsigned_abs};
ghost use Rattle.lot_num.specs.Round.{limit, rnd};
ghost use Rattle.lot_geom.specs.Along.{along as along_in, chord_length, length_until, sum_until, chords, on_chord as on_chord_in, fraction_of as fraction_in, IsPassed};
ghost use Rattle.lot_geom.specs.Chords.{max_chord_length};

use crate::chord::{chord_end, pass_chord};
use crate::cubic::Cubic;
use crate::number::limited;
use lot_num::rnd_div;
use lot_types::{Fx, Point};

/// The number of chords by which a curve is measured.
const CHORDS: u32 = 128;

/// One, in millionths.
const ONE: i64 = 1_000_000;

/// The point at the fraction `f` of the length of a curve, in millionths of a pixel. `f` is in millionths, and limited
/// to 0 to 1. The length is that of 128 chords; between their ends the point is on the chord. A curve of length 0 gives
/// its start.
///
/// It makes one pass over the chords and takes no memory.
pub fn along(c: &Cubic, f: i64) -> Point
    ensures { result ≡ along_in c.now f }
{
    let f = fraction_of(f);
    let mut lengths = [0; CHORDS as usize];
    let total = measure(c, &mut lengths);
    let goal = f as u128 * total as u128;
    let (k, before) = first_reaching(&lengths, goal);
    let passed = goal - ONE as u128 * before as u128;
    let (p, q) = (chord_end(c, CHORDS, k), chord_end(c, CHORDS, k + 1));
    on_chord(p, q, lengths[k as usize], passed)
}

/// A fraction in millionths, limited to 0 to 1.
fn fraction_of(f: i64) -> u64
    ensures value { result ≡ fraction_in f }
    ensures small { result ≤ 10 ^ 6 }
{
    f.clamp(0, ONE) as u64
}

/// Fills `lengths` with the lengths of the chords, in millionths of a pixel, and returns their sum.
fn measure(c: &Cubic, lengths: &mut [u64; CHORDS as usize]) -> u64
    ensures each { (k : ℕ) → k < chords → slice_index lengths.new k ≡ chord_length c.now k }
    ensures short { (k : ℕ) → k < chords → slice_index lengths.new k ≤ max_chord_length }
    ensures total { result ≡ length_until c.now chords }
    ensures small { result ≤ chords * max_chord_length }
{
    let mut total = 0;
    let mut at = chord_end(c, CHORDS, 0);
    for k in 0..CHORDS {
        let length = pass_chord(c, CHORDS, k, &mut at);
        lengths[k as usize] = length;
        total += length;
    }
    total
}

/// The first chord at whose end `goal` is reached, in millionths of the unit of `lengths`, and the length of those
/// before it.
fn first_reaching(lengths: &[u64; CHORDS as usize], goal: u128) -> (u32, u64)
    requires short { (k : ℕ) → k < chords → slice_index lengths.now k ≤ max_chord_length }
    requires reached { goal ≤ 10 ^ 6 * sum_until lengths.now chords }
    ensures within { result.0 < chords }
    ensures before { result.1 ≡ sum_until lengths.now result.0 }
    ensures reaches { goal ≤ 10 ^ 6 * sum_until lengths.now (result.0 + 1) }
    ensures first { (k : ℕ) → k < result.0 → 10 ^ 6 * sum_until lengths.now (k + 1) < goal }
{
    let mut before = 0;
    for (k, length) in lengths.iter().enumerate() {
        let end = before + length;
        if goal <= ONE as u128 * end as u128 {
            return (k as u32, before);
        }
        before = end;
    }
    unreachable!()
}

/// The point of the line from `p` to `q` at `passed` millionths of units of its length.
fn on_chord(p: Point, q: Point, length: u64, passed: u128) -> Point
    requires length { length ≤ max_chord_length }
    requires within { passed ≤ 10 ^ 6 * length }
    ensures { result ≡ on_chord_in p q length (pos passed) }
{
    if length == 0 {
        return p;
    }
    let whole = ONE as i128 * length as i128;
    Point {
        x: between(p.x, q.x, passed as i128, whole),
        y: between(p.y, q.y, passed as i128, whole),
    }
}

/// The number at a part of the line from `from` to `to`, limited to the range.
fn between(from: Fx, to: Fx, passed: i128, whole: i128) -> Fx
    requires part { IsPassed passed whole }
    ensures { result ≡ limit (from +ℤ rnd ((to -ℤ from) *ℤ passed) whole) }
{
    let change = part_of(to.get() - from.get(), passed, whole);
    limited(from.get() as i128 + change)
}

/// A part of a change, rounded.
fn part_of(change: i64, passed: i128, whole: i128) -> i128
    requires change { unsigned_abs change ≤ 2 * 10 ^ 13 }
    requires part { IsPassed passed whole }
    ensures value { result ≡ rnd (change *ℤ passed) whole }
    ensures small { unsigned_abs result ≤ 6 * 10 ^ 32 }
{
    rnd_div(change as i128 * passed, whole)
}

//! Chords, by which curves are measured.

ghost use Rattle.std.specs.Prelude.{◌≡◌, ◌+◌, ◌*◌, ◌^◌, ◌<◌, ◌≤◌, ◌-ℤ◌};
ghost use Rattle.lot_geom.specs.Chords.{chord_end as chord_end_in, distance as distance_in, square_of as square_in, length_of_chord, max_chord_length};
ghost use Rattle.lot_geom.specs.Cubic.{IsNumberOfParts};

use crate::cubic::{Cubic, point_at};
use lot_num::isqrt;
use lot_types::{Fx, Point};

/// Where the first `k` of `n` chords of a curve end.
///
/// `k` is at most `n`, and `n` is 64, 128 or 65,536.
pub(crate) fn chord_end(c: &Cubic, n: u32, k: u32) -> Point
    requires within { k ≤ n }
    requires parts { IsNumberOfParts n }
    ensures { result ≡ chord_end_in c.now n k }
{
    point_at(c, k, n)
}

/// Moves `at` from the start to the end of the chord after the first `k` of `n`, and returns the length of that chord,
/// in millionths of a pixel.
///
/// `k` is below `n`, and `n` is 64, 128 or 65,536.
pub(crate) fn pass_chord(c: &Cubic, n: u32, k: u32, at: &mut Point) -> u64
    requires within { k < n }
    requires parts { IsNumberOfParts n }
    requires start { at.old ≡ chord_end_in c.now n k }
    ensures length { result ≡ length_of_chord c.now n k }
    ensures short { result ≤ max_chord_length }
    ensures end { at.new ≡ chord_end_in c.now n (k + 1) }
{
    let start = *at;
    *at = chord_end(c, n, k + 1);
    distance(start, *at)
}

/// The distance of two points, rounded down.
fn distance(p: Point, q: Point) -> u64
    ensures value { result ≡ distance_in p q }
    ensures small { result ≤ max_chord_length }
{
    isqrt(square_between(p.x, q.x) + square_between(p.y, q.y))
}

/// The square of the difference of two numbers.
fn square_between(x: Fx, y: Fx) -> u128
    ensures value { result ≡ square_in (y -ℤ x) }
    ensures small { result ≤ 4 * 10 ^ 26 }
{
    let size = (y.get() - x.get()).unsigned_abs() as u128;
    size * size
}

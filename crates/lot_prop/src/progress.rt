//! How far a component of a value is between two keyframes.
ghost use Rattle.std.specs.Prelude.{◌≡◌, ◌≤◌, ◌*◌, ◌^◌, ◌<ℤ◌, ◌*ℤ◌, pos, unsigned_abs};
ghost use Rattle.lot_num.specs.Easing.{between as between_in};
ghost use Rattle.lot_num.specs.Round.{rnd};

use lot_geom::limited;
use lot_num::rnd_div;
use lot_types::Fx;

/// How far a component of a value has come from one keyframe to the next: `num` of `den` of its change. It may be below
/// 0, or above the whole change.
#[derive(Clone, Copy)]
pub struct Progress {
    pub num: i64,
    pub den: i64,
    ghost small: { unsigned_abs num ≤ 2 * 10 ^ 13 },
    ghost positive: { pos 0 <ℤ den },
}

impl Progress {
    /// The number that goes from `s0` to `s1`, limited to the range.
    pub fn between(&self, s0: Fx, s1: Fx) -> Fx
        ensures { result ≡ between_in s0 s1 self.now.num self.now.den }
    {
        limited(s0.get() as i128 + part_of(s1.get() - s0.get(), self.num, self.den))
    }
}

/// The part `num / den` of a change, rounded.
fn part_of(change: i64, num: i64, den: i64) -> i128
    requires change { unsigned_abs change ≤ 2 * 10 ^ 13 }
    requires num { unsigned_abs num ≤ 2 * 10 ^ 13 }
    requires den { pos 0 <ℤ den }
    ensures value { result ≡ rnd (change *ℤ num) den }
    ensures small { unsigned_abs result ≤ 4 * 10 ^ 26 }
{
    rnd_div(change as i128 * num as i128, den as i128)
}

//! Handles of easing curves.

ghost use Rattle.std.specs.Prelude.{◌≡◌, ◌≤ℤ◌, map};
ghost use Rattle.std.specs.List.{All};
ghost use Rattle.lot_types.specs.Handles.{IsIn, nearest_in, nearest_handles};

use std::marker::Model;

/// The greatest part of the time of a handle: 1, in millionths.
const MAX_X: i64 = 1_000_000;

/// The greatest magnitude of the part of the change of a handle: 100, in millionths.
const MAX_Y: i64 = 100_000_000;

/// A handle of an easing curve for each component of a value: a vector has two of them, a color three, and every other
/// value one, the first.
#[derive(Clone, Copy)]
pub struct Ease3 {
    /// The parts of the time between the two keyframes, from 0 to one million, in millionths.
    pub x: [i64; 3],
    /// The parts of the change of the value, from -10^8 to 10^8, in millionths.
    pub y: [i64; 3],
}

impl Model for Ease3 {
    ghost use Rattle.lot_types.specs.Handles.{Handles, AreInRange};

    ghost Value = { Handles };

    ghost view = { λ e. record { x = e.x; y = e.y } };

    ghost invariant = { λ e. AreInRange e.x e.y };

    ghost inverse = { λ h. record { x = h.x; y = h.y } };
}

impl Ease3 {
    /// The handles with these coordinates, each limited to its range.
    pub fn limit(x: [i64; 3], y: [i64; 3]) -> Ease3
        ensures { result ≡ nearest_handles x y }
    {
        Ease3 {
            x: limit_all(x, 0, MAX_X),
            y: limit_all(y, -MAX_Y, MAX_Y),
        }
    }
}

// The numbers from `low` to `high` that are nearest to these.
fn limit_all(numbers: [i64; 3], low: i64, high: i64) -> [i64; 3]
    requires { low ≤ℤ high }
    ensures value { result ≡ map (nearest_in (low, high)) numbers }
    ensures range { All (IsIn (low, high)) result }
{
    [
        numbers[0].clamp(low, high),
        numbers[1].clamp(low, high),
        numbers[2].clamp(low, high),
    ]
}

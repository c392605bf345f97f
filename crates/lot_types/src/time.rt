//! Times.

ghost use Rattle.std.specs.Prelude.{◌≡◌, ◌↔◌, IsSome, IfSome};
ghost use Rattle.lot_types.specs.Range.{InRange};

use crate::range::is_in_range;
use std::marker::Model;

/// A time in millionths of a frame. It is from -10^13 to 10^13, ten million frames either way, which is this project's
/// own limit.
#[derive(Clone, Copy)]
pub struct Time {
    raw: i64,
}

impl Model for Time {
    ghost use Rattle.std.specs.Prelude.{ℤ};
    ghost use Rattle.lot_types.specs.Range.{InRange};

    ghost Value = { ℤ };

    ghost view = { λ x. x.raw };

    ghost invariant = { λ x. InRange x.raw };

    ghost inverse = { λ z. record { raw = z } };
}

impl Time {
    /// The time of `v` millionths of a frame. `None` exactly where `v` is below -10^13 or above 10^13.
    pub fn new(v: i64) -> Option<Time>
        ensures some { IsSome result ↔ InRange v }
        ensures value { IfSome result (λ x. x ≡ v) }
    {
        if is_in_range(v) {
            Some(Time { raw: v })
        } else {
            None
        }
    }

    /// The number of millionths of a frame, from -10^13 to 10^13.
    pub fn get(self) -> i64
        ensures value { result ≡ self }
        ensures range { InRange result }
    {
        self.raw
    }
}

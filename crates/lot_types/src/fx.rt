//! Numbers.

ghost use Rattle.std.specs.Prelude.{◌≡◌, ◌↔◌, IsSome, IfSome};
ghost use Rattle.lot_types.specs.Range.{InRange};

use crate::range::is_in_range;
use std::marker::Model;

/// A number in millionths: of a pixel, a degree, a per cent, or of one. It is from -10^13 to 10^13, ten million either
/// way, which is this project's own limit.
#[derive(Clone, Copy, Debug, PartialEq, Eq)]
pub struct Fx {
    raw: i64,
}

impl Model for Fx {
    ghost use Rattle.std.specs.Prelude.{ℤ};
    ghost use Rattle.lot_types.specs.Range.{InRange};

    ghost Value = { ℤ };

    ghost view = { λ x. x.raw };

    ghost invariant = { λ x. InRange x.raw };

    ghost inverse = { λ z. record { raw = z } };
}

impl Fx {
    /// The number 0.
    pub const ZERO: Fx = Fx { raw: 0 };

    /// The number 1.
    pub const ONE: Fx = Fx { raw: 1_000_000 };

    /// The number of `v` millionths. `None` exactly where `v` is below -10^13 or above 10^13.
    pub fn new(v: i64) -> Option<Fx>
        ensures some { IsSome result ↔ InRange v }
        ensures value { IfSome result (λ x. x ≡ v) }
    {
        if is_in_range(v) {
            Some(Fx { raw: v })
        } else {
            None
        }
    }

    /// The number of millionths, from -10^13 to 10^13.
    pub fn get(self) -> i64
        ensures value { result ≡ self }
        ensures range { InRange result }
    {
        self.raw
    }
}

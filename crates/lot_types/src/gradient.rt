//! The colors of a gradient.

use crate::{Duplicate, Fx, Memory, Seq};
use std::marker::Model;

/// The colors and opacities along a gradient, after the Lottie Specification 1.0, "Gradient". There is at least one
/// stop, and there are at most [`MAX_LIST_ITEMS`] numbers.
#[derive(Drop)]
pub struct Gradient {
    /// How many stops of color it has.
    pub stops: u32,
    /// Four numbers for each stop of color, its offset and its red, green and blue, and after all of these two for each
    /// stop of opacity, its offset and its opacity. All of them are in millionths: 0 is none, and 10^6 all.
    pub flat: Seq<Fx>,
}

impl Model for Gradient {
    ghost use Rattle.std.specs.Prelude.{length};
    ghost use Rattle.lot_types.specs.Ramp.{Ramp, HasStops};

    ghost Value = { Ramp };

    ghost view = { λ g. record { stops = g.stops; flat = g.flat } };

    ghost invariant = { λ g. HasStops g.stops (length g.flat) };
}

impl Duplicate for Gradient {
    fn copy(&self) -> Result<Gradient, Memory> {
        let flat = self.flat.copy()?;
        Ok(Gradient {
            stops: self.stops,
            flat,
        })
    }
}

//! Stops of gradients.

use crate::{Duplicate, Fx, Memory, Rgb};

/// The color at a place of a gradient.
#[derive(Clone, Copy)]
pub struct Stop {
    /// The place, from 0 at the start of the gradient to 10^6 at its end.
    pub offset: Fx,
    pub rgb: Rgb,
    /// The opacity, from 0 to 10^6.
    pub alpha: Fx,
}

impl Duplicate for Stop {
    fn copy(&self) -> Result<Stop, Memory> {
        Ok(*self)
    }
}

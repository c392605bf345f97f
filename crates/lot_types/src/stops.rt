//! The colors of a gradient over time.

use crate::{Duplicate, Gradient, Memory, Prop};

/// The colors of a gradient of a fixed number of stops, over time.
#[derive(Drop)]
pub struct Stops {
    /// How many stops it has.
    pub p: u32,
    /// The colors and opacities.
    pub k: Prop<Gradient>,
}

impl Duplicate for Stops {
    fn copy(&self) -> Result<Stops, Memory> {
        Ok(Stops {
            p: self.p,
            k: self.k.copy()?,
        })
    }
}

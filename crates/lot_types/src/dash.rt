//! Dashes of strokes.

use crate::{Duplicate, Fx, Memory, Prop};

/// What a number of a dash pattern is.
#[derive(Clone, Copy)]
pub enum DashKind {
    /// The length of a dash.
    Dash,
    /// The length of the gap after a dash.
    Gap,
    /// The length at which the stroke enters the pattern.
    Offset,
}

/// A number of a dash pattern, after the Lottie Specification 1.0, "Stroke Dash".
#[derive(Drop)]
pub struct Dash {
    /// What the number is.
    pub n: DashKind,
    /// The number, in millionths of a pixel.
    pub v: Prop<Fx>,
}

impl Duplicate for Dash {
    fn copy(&self) -> Result<Dash, Memory> {
        Ok(Dash {
            n: self.n,
            v: self.v.copy()?,
        })
    }
}

//! Paints of masks.

use crate::{Contour, Duplicate, Fx, Memory, Seq};

/// An area of a layer's mask. What is white in the mask is visible of the layer.
#[derive(Drop)]
pub struct MaskPaint {
    /// The area is white, or else black.
    pub white: bool,
    /// The area is what is outside the contours.
    pub inverted: bool,
    /// The opacity, from 0 to 10^6.
    pub opacity: Fx,
    pub contours: Seq<Contour>,
}

impl Duplicate for MaskPaint {
    fn copy(&self) -> Result<MaskPaint, Memory> {
        Ok(MaskPaint {
            white: self.white,
            inverted: self.inverted,
            opacity: self.opacity,
            contours: self.contours.copy()?,
        })
    }
}

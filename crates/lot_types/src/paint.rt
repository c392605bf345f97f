//! Paints.

use crate::{Brush, Contour, Duplicate, Fx, Ink, Matrix, Memory, Seq};

/// Contours with the style in which they are drawn.
#[derive(Drop)]
pub struct Paint {
    pub ink: Ink,
    pub brush: Brush,
    /// The opacity, from 0 to 10^6.
    pub opacity: Fx,
    /// The map from the space of the style to that of the layer.
    pub matrix: Matrix,
    pub contours: Seq<Contour>,
}

impl Duplicate for Paint {
    fn copy(&self) -> Result<Paint, Memory> {
        Ok(Paint {
            ink: self.ink.copy()?,
            brush: self.brush.copy()?,
            opacity: self.opacity,
            matrix: self.matrix,
            contours: self.contours.copy()?,
        })
    }
}

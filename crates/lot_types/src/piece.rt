//! Evaluated layers.

use crate::{Duplicate, Fx, MaskPaint, Matrix, Memory, Paint, Seq, Time};

/// A layer at a time.
#[derive(Drop)]
pub struct Piece {
    /// The map from the space of the layer to that of its composition.
    pub matrix: Matrix,
    /// The opacity, from 0 to 10^6.
    pub opacity: Fx,
    /// The paints, of which the first lies at the bottom.
    pub paints: Seq<Paint>,
    /// The layer has a mask.
    pub masked: bool,
    /// The mask is white where no paint of it lies, or else black.
    pub white: bool,
    /// The paints of the mask, of which the first lies at the bottom.
    pub masks: Seq<MaskPaint>,
    /// The time of the composition that it shows, where a property of the layer gives it.
    pub remap: Option<Time>,
}

impl Duplicate for Piece {
    fn copy(&self) -> Result<Piece, Memory> {
        Ok(Piece {
            matrix: self.matrix,
            opacity: self.opacity,
            paints: self.paints.copy()?,
            masked: self.masked,
            white: self.white,
            masks: self.masks.copy()?,
            remap: self.remap,
        })
    }
}

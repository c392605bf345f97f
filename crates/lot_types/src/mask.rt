//! Masks of layers.

use crate::{Bezier, Duplicate, Fx, Memory, Prop};

/// What a mask does to the part of the layer that is visible.
#[derive(Clone, Copy)]
pub enum MaskMode {
    /// Nothing.
    None,
    /// Its area becomes visible.
    Add,
    /// Its area becomes invisible.
    Subtract,
    /// What is outside its area becomes invisible.
    Intersect,
}

/// A mask of a layer, after the Lottie Specification 1.0, "Mask".
#[derive(Drop)]
pub struct Mask {
    pub mode: MaskMode,
    /// The area of the mask is what is outside its path.
    pub inv: bool,
    /// The path.
    pub pt: Prop<Bezier>,
    /// The opacity, in millionths of a per cent. It is limited to 0 to 100 where it is evaluated.
    pub o: Prop<Fx>,
}

impl Duplicate for Mask {
    fn copy(&self) -> Result<Mask, Memory> {
        Ok(Mask {
            mode: self.mode,
            inv: self.inv,
            pt: self.pt.copy()?,
            o: self.o.copy()?,
        })
    }
}

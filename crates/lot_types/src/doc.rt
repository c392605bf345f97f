//! Documents.

use crate::{Comp, Duplicate, Fx, Memory, Seq, Slot, Time};

/// An animation, after the Lottie Specification 1.0, "Animation".
#[derive(Drop)]
pub struct Doc {
    /// The width, in millionths of a pixel.
    pub w: Fx,
    /// The height, in millionths of a pixel.
    pub h: Fx,
    /// How many frames a second has, in millionths.
    pub fr: Fx,
    /// The first time of the animation.
    pub ip: Time,
    /// The first time after `ip` that is no more part of the animation.
    pub op: Time,
    pub slots: Seq<Slot>,
    /// The compositions of the assets in order, and the main composition as the last.
    pub comps: Seq<Comp>,
}

impl Duplicate for Doc {
    fn copy(&self) -> Result<Doc, Memory> {
        Ok(Doc {
            w: self.w,
            h: self.h,
            fr: self.fr,
            ip: self.ip,
            op: self.op,
            slots: self.slots.copy()?,
            comps: self.comps.copy()?,
        })
    }
}

//! Keyframes.

use crate::{Duplicate, Ease3, Memory, Point, Time};

/// A keyframe, after the Lottie Specification 1.0, "Keyframes": the value of a property at a time. From there the
/// property changes to the value of the next keyframe.
#[derive(Drop)]
pub struct Key<T> {
    /// The time.
    pub t: Time,
    pub value: T,
    /// The value stays until the next keyframe.
    pub hold: bool,
    /// The handle that leaves this keyframe and the one that enters the next. Without them the value is interpolated
    /// linearly.
    pub ease: Option<(Ease3, Ease3)>,
    /// The tangent that leaves this value, in millionths of a pixel. Only vectors have one that is not 0.
    pub to: Point,
    /// The tangent that enters the next value, in millionths of a pixel. Only vectors have one that is not 0.
    pub ti: Point,
}

impl<T: Duplicate> Duplicate for Key<T> {
    fn copy(&self) -> Result<Key<T>, Memory> {
        let value = self.value.copy()?;
        Ok(Key {
            t: self.t,
            value,
            hold: self.hold,
            ease: self.ease,
            to: self.to,
            ti: self.ti,
        })
    }
}

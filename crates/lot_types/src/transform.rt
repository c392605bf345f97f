//! Transforms of layers and groups.

use crate::duplicate::{copy_four, copy_three};
use crate::{Duplicate, Fx, Memory, Point, Position, Prop};

/// How a layer or a group lies in what contains it: moved by minus the anchor point, scaled, skewed, turned, and moved
/// to the position, in this order.
///
/// After the Lottie Specification 1.0, "Transform".
#[derive(Drop)]
pub struct Transform {
    /// The anchor point, in millionths of a pixel.
    pub a: Prop<Point>,
    /// The position, in millionths of a pixel.
    pub p: Position,
    /// The scale, in millionths of a per cent.
    pub s: Prop<Point>,
    /// The rotation, in millionths of a degree. A positive angle turns clockwise.
    pub r: Prop<Fx>,
    /// The opacity, in millionths of a per cent. It is limited to 0 to 100 where it is evaluated.
    pub o: Prop<Fx>,
    /// The angle of the skew, in millionths of a degree.
    pub sk: Prop<Fx>,
    /// The angle of the axis of the skew, in millionths of a degree.
    pub sa: Prop<Fx>,
}

impl Duplicate for Transform {
    fn copy(&self) -> Result<Transform, Memory> {
        let (a, p, s, r) = copy_four(&self.a, &self.p, &self.s, &self.r)?;
        let (o, sk, sa) = copy_three(&self.o, &self.sk, &self.sa)?;
        Ok(Transform {
            a,
            p,
            s,
            r,
            o,
            sk,
            sa,
        })
    }
}

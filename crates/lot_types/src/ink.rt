//! Colors and gradients of paints.

use crate::{Duplicate, Fx, Memory, Point, Rgb, Seq, Stop};

/// The color of every point of a paint.
#[derive(Drop)]
pub enum Ink {
    /// One color.
    Flat(Rgb),
    /// A gradient along a line.
    Linear {
        from: Point,
        to: Point,
        stops: Seq<Stop>,
    },
    /// A gradient from a focus to a circle.
    Radial {
        center: Point,
        /// The radius of the circle, in millionths of a pixel.
        radius: Fx,
        focus: Point,
        stops: Seq<Stop>,
    },
}

impl Duplicate for Ink {
    fn copy(&self) -> Result<Ink, Memory> {
        match self {
            Ink::Flat(rgb) => Ok(Ink::Flat(*rgb)),
            Ink::Linear { from, to, stops } => Ok(Ink::Linear {
                from: *from,
                to: *to,
                stops: stops.copy()?,
            }),
            Ink::Radial {
                center,
                radius,
                focus,
                stops,
            } => Ok(Ink::Radial {
                center: *center,
                radius: *radius,
                focus: *focus,
                stops: stops.copy()?,
            }),
        }
    }
}

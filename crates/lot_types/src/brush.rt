//! Fills and strokes.

use crate::{Duplicate, Fx, Memory, Seq};

/// Which points a paint colors: those inside its contours, or those along them.
#[derive(Drop)]
pub enum Brush {
    /// The inside, by SVG's rule `evenodd` or else by `nonzero`.
    Fill {
        even_odd: bool,
    },
    /// A line along the contours. A `cap` or a `join` that is none of its numbers counts as 3.
    Stroke {
        /// The width of the line, in millionths of a pixel.
        width: Fx,
        /// The ends: 1 butt, 2 round, 3 square.
        cap: u8,
        /// The corners: 1 miter, 2 round, 3 bevel.
        join: u8,
        /// The miter limit, in millionths.
        miter: Fx,
        /// The lengths of dashes and gaps in turn, in millionths of a pixel. None of them: the line is whole.
        dashes: Seq<Fx>,
        /// The length at which the line enters the dashes, in millionths of a pixel.
        dash_offset: Option<Fx>,
    },
}

impl Duplicate for Brush {
    fn copy(&self) -> Result<Brush, Memory> {
        match self {
            Brush::Fill { even_odd } => Ok(Brush::Fill {
                even_odd: *even_odd,
            }),
            Brush::Stroke {
                width,
                cap,
                join,
                miter,
                dashes,
                dash_offset,
            } => Ok(Brush::Stroke {
                width: *width,
                cap: *cap,
                join: *join,
                miter: *miter,
                dashes: dashes.copy()?,
                dash_offset: *dash_offset,
            }),
        }
    }
}

//! Contours.

use crate::{Duplicate, Memory, Point, Seg, Seq};

/// Cubic curves, each from the end of the one before it.
#[derive(Drop)]
pub struct Contour {
    /// The contour ends where it begins.
    pub closed: bool,
    /// Where the first curve begins.
    pub start: Point,
    pub segs: Seq<Seg>,
}

impl Duplicate for Contour {
    fn copy(&self) -> Result<Contour, Memory> {
        Ok(Contour {
            closed: self.closed,
            start: self.start,
            segs: self.segs.copy()?,
        })
    }
}

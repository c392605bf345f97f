//! Outlines of shapes.

use crate::{Contour, Duplicate, Memory, Seq};

/// The contours of a shape at a time.
#[derive(Drop)]
pub struct Outline {
    pub contours: Seq<Contour>,
}

impl Duplicate for Outline {
    fn copy(&self) -> Result<Outline, Memory> {
        Ok(Outline {
            contours: self.contours.copy()?,
        })
    }
}

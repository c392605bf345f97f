//! What is collected of the items of a shape layer.

use crate::{Duplicate, Memory, Outline, Painted, Seq};

/// The leaves and the styles of a shape layer at a time, each in order of place.
#[derive(Drop)]
pub struct Collected {
    /// What is left of each leaf after its trims, in the leaf's own space.
    pub leaves: Seq<Outline>,
    pub styles: Seq<Painted>,
}

impl Duplicate for Collected {
    fn copy(&self) -> Result<Collected, Memory> {
        Ok(Collected {
            leaves: self.leaves.copy()?,
            styles: self.styles.copy()?,
        })
    }
}

//! What a style paints.

use crate::{Duplicate, Fx, Matrix, Memory, Seq};

/// What a style of a shape layer paints: the leaves from `from` to below `to`, counted over the whole layer in order of
/// place.
#[derive(Drop)]
pub struct Painted {
    /// The indices that lead to the style, the outermost first.
    pub place: Seq<u32>,
    pub from: usize,
    pub to: usize,
    /// The map from the space of the group that the style is in to that of the layer.
    pub matrix: Matrix,
    /// The opacities of the groups that the style is in, from the innermost outwards, from 0 to 10^6.
    pub groups: Seq<Fx>,
    /// For each of its leaves, the map from the space of the leaf to that of the style.
    pub maps: Seq<Matrix>,
}

impl Duplicate for Painted {
    fn copy(&self) -> Result<Painted, Memory> {
        Ok(Painted {
            place: self.place.copy()?,
            from: self.from,
            to: self.to,
            matrix: self.matrix,
            groups: self.groups.copy()?,
            maps: self.maps.copy()?,
        })
    }
}

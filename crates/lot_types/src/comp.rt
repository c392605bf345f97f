//! Compositions.

use crate::{Duplicate, Layer, Memory, Name, Seq};

/// A composition: layers, of which the first lies on top.
#[derive(Drop)]
pub struct Comp {
    /// The name by which layers show it. Only the main composition has none.
    pub id: Option<Name>,
    pub layers: Seq<Layer>,
}

impl Duplicate for Comp {
    fn copy(&self) -> Result<Comp, Memory> {
        Ok(Comp {
            id: self.id.copy()?,
            layers: self.layers.copy()?,
        })
    }
}

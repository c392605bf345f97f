//! The layers that are drawn by themselves.

ghost use Rattle.std.specs.Prelude.{◌≡◌, ◌≤◌, length, IfOk};
ghost use Rattle.std.specs.List.{All};
ghost use Rattle.lot_refs.specs.Drawn.{is_drawn as drawn_in, drawn_layers, drawn_tables};
ghost use Rattle.lot_types.specs.WellFormed.{HasFewLayers};
ghost use Rattle.lot_types.specs.Limits.{max_layers};

use lot_types::{Comp, Layer, Memory, Seq};
use std::alloc::Global;

/// The numbers of the layers of each composition that are drawn by themselves.
pub fn list_drawn(alloc: Global, comps: &[Comp]) -> Result<Seq<Seq<u32>>, Memory>
    requires { All HasFewLayers comps.now }
    ensures { IfOk result (λ tables. tables ≡ drawn_tables comps.now) }
{
    let mut tables = Seq::with_capacity(alloc, comps.len())?;
    for comp in comps {
        tables.push(list_layers(alloc, comp.layers.items())?)?;
    }
    Ok(tables)
}

/// The numbers of these layers that are drawn by themselves.
fn list_layers(alloc: Global, layers: &[Layer]) -> Result<Seq<u32>, Memory>
    requires { length layers.now ≤ max_layers }
    ensures { IfOk result (λ drawn. drawn ≡ drawn_layers layers.now) }
{
    let mut drawn = Seq::new(alloc);
    for (l, x) in layers.iter().enumerate() {
        if is_drawn(x) {
            drawn.push(l as u32)?;
        }
    }
    Ok(drawn)
}

/// Whether a layer is drawn by itself.
fn is_drawn(layer: &Layer) -> bool
    ensures { result ≡ drawn_in layer.now }
{
    !layer.td
}

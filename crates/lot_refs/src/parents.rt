//! The parents of layers.

ghost use Rattle.std.specs.Prelude.{◌≡◌, ◌≤◌, length, IfOk};
ghost use Rattle.std.specs.List.{All};
ghost use Rattle.lot_refs.specs.Linked.{parent_tables};
ghost use Rattle.lot_types.specs.WellFormed.{HasFewLayers};
ghost use Rattle.lot_types.specs.Limits.{max_layers};
ghost use Rattle.lot_refs.specs.Parents.{parents};

use crate::numbers::{find_named, index_numbers};
use lot_types::{Comp, Layer, Memory, Seq};
use std::alloc::Global;

/// The parents of the layers of each composition.
pub fn link_parents(alloc: Global, comps: &[Comp]) -> Result<Seq<Seq<Option<u32>>>, Memory>
    requires { All HasFewLayers comps.now }
    ensures { IfOk result (λ tables. tables ≡ parent_tables comps.now) }
{
    let mut tables = Seq::with_capacity(alloc, comps.len())?;
    for comp in comps {
        tables.push(link_layers(alloc, comp.layers.items())?)?;
    }
    Ok(tables)
}

/// The parents of the layers of a composition.
#[tactic(auto, using(crate::proofs::Named::named_same))]
fn link_layers(alloc: Global, layers: &[Layer]) -> Result<Seq<Option<u32>>, Memory>
    requires { length layers.now ≤ max_layers }
    ensures { IfOk result (λ links. links ≡ parents layers.now) }
{
    let index = index_numbers(alloc, layers)?;
    let mut links = Seq::with_capacity(alloc, layers.len())?;
    for x in layers {
        links.push(find_named(&index, x.parent))?;
    }
    Ok(links)
}

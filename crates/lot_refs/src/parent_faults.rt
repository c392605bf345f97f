//! The faults of parents.

ghost use Rattle.std.specs.Prelude.{◌≡◌, ◌≤◌, ◌&&◌, length, IfOk, Option, Some, is_none, if◌then◌else◌};
ghost use Rattle.std.specs.List.{All};
ghost use Rattle.lot_refs.specs.Linked.{parent_tables};
ghost use Rattle.lot_types.specs.WellFormed.{HasFewLayers};
ghost use Rattle.lot_types.specs.Limits.{max_comps, max_layers};
ghost use Rattle.lot_refs.specs.Links.{CirclesAre};
ghost use Rattle.lot_refs.specs.Parents.{parents};
ghost use Rattle.lot_refs.specs.RefFaults.{first_found, comp_faults, parent_faults, parent_rule};

use crate::links::circles;
use crate::ref_fault::{Member, RefFault};
use lot_types::{Comp, FaultCode, Layer, Memory, Seq};
use std::alloc::Global;

/// The first fault of parents, in the order of the compositions and their layers.
pub fn find_fault(
    alloc: Global,
    comps: &[Comp],
    tables: &[Seq<Option<u32>>],
) -> Result<Option<RefFault>, Memory>
    requires few_comps { length comps.now ≤ max_comps }
    requires few_layers { All HasFewLayers comps.now }
    requires tables { tables.now ≡ parent_tables comps.now }
    ensures { IfOk result (λ found. first_found (parent_faults comps.now) ≡ found) }
{
    for (c, comp) in comps.iter().enumerate() {
        let links = tables[c].items();
        let on_circle = circles(alloc, links)?;
        if let Some(found) = fault_in(c as u32, comp.layers.items(), links, &on_circle) {
            return Ok(Some(found));
        }
    }
    Ok(None)
}

/// The first fault of the parents of a composition.
fn fault_in(c: u32, layers: &[Layer], links: &[Option<u32>], on_circle: &[bool]) -> Option<RefFault>
    requires few { length layers.now ≤ max_layers }
    requires links { links.now ≡ parents layers.now }
    requires circles { CirclesAre on_circle.now (parents layers.now) (length layers.now) }
    ensures { first_found (comp_faults c layers.now) ≡ result }
{
    for (l, x) in layers.iter().enumerate() {
        if let Some(found) = fault_of(c, l as u32, x, links[l], on_circle[l]) {
            return Some(found);
        }
    }
    None
}

/// The first fault of layer `l` of composition `c`, given its parent and whether that chain comes back.
#[tactic(auto, using(crate::proofs::FirstFaults::first_of_two))]
fn fault_of(c: u32, l: u32, x: &Layer, parent: Option<u32>, on_circle: bool) -> Option<RefFault>
    ensures { first_found (parent_rule c l x.now parent on_circle) ≡ result }
{
    let cycle = RefFault {
        code: FaultCode::Cycle,
        comp: c,
        layer: l,
        member: Member::Parent,
    };
    let no_layer = RefFault {
        code: FaultCode::NoLayer,
        comp: c,
        layer: l,
        member: Member::Parent,
    };
    let rest = pick(on_circle, cycle, None);
    let found = pick(is_missing(x.parent.is_some(), parent), no_layer, rest);
    found
}

/// A layer is named, and it is none of the composition.
fn is_missing(is_named: bool, layer: Option<u32>) -> bool
    ensures { result ≡ (is_named && is_none layer) }
{
    is_named && layer.is_none()
}

/// This fault where the condition holds, else the rest.
fn pick(condition: bool, found: RefFault, rest: Option<RefFault>) -> Option<RefFault>
    ensures { result ≡ (if condition then Some found else rest) }
{
    if condition { Some(found) } else { rest }
}

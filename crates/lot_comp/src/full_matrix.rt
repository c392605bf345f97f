//! The full matrix of a layer.
ghost use Rattle.std.specs.Prelude.{◌≡◌, ◌<◌, Some, length, IfOk};
ghost use Rattle.std.specs.List.{All};
ghost use Rattle.lot_comp.specs.Full.{own_at as own_in, chain_product, full_matrix as full_in, full_by_parent};
ghost use Rattle.lot_refs.specs.Linked.{layers_of};
ghost use Rattle.lot_refs.specs.Parents.{parent_of};

use crate::chain::chain_of;
use lot_geom::then;
use lot_prop::matrix_at;
use lot_refs::Linked;
use lot_types::{Matrix, Memory, Time};
use std::alloc::Global;

/// The map from the space of layer `l` of composition `c` to that of the composition, at a time: its own matrix, and
/// then that of its parent. Want of memory is the one refusal.
pub(crate) fn full_of(alloc: Global, d: &Linked, c: u32, l: u32, t: Time) -> Result<Matrix, Memory>
    requires comp { c < length d.now.comps }
    requires layer { l < length (layers_of d.now c) }
    ensures value { IfOk result (λ m. full_in d.now c l t ≡ Some m) }
    ensures by_parent { IfOk result (λ m.
        full_by_parent d.now c l t (parent_of (layers_of d.now c) l) ≡ Some m) }
{
    // The clause by the parent rests on what this call says of the chain of parents.
    let _parent = d.parent_of(c, l);
    let chain = chain_of(alloc, d, c, l)?;
    let m = product_of(d, c, l, &chain.items()[1..], t);
    Ok(m)
}

/// The product along a chain, from its end: the matrix of the last layer is the right factor of all others.
#[tactic(auto, unfolding(lot_group::specs::Product::then_both))]
fn product_of(d: &Linked, c: u32, l: u32, rest: &[u32], t: Time) -> Matrix
    requires comp { c < length d.now.comps }
    requires first { l < length (layers_of d.now c) }
    requires within { All (λ k. k < length (layers_of d.now c)) rest.now }
    ensures { chain_product d.now c t l rest.now ≡ Some result }
{
    let mut i = rest.len();
    if i == 0 {
        return own_at(d, c, l, t);
    }
    i -= 1;
    let mut made = own_at(d, c, rest[i], t);
    while i > 0 {
        i -= 1;
        made = then(own_at(d, c, rest[i], t), made);
    }
    then(own_at(d, c, l, t), made)
}

/// A layer's own matrix at a time.
#[tactic(auto, unfolding(crate::specs::Full::own_at))]
pub(crate) fn own_at(d: &Linked, c: u32, l: u32, t: Time) -> Matrix
    requires comp { c < length d.now.comps }
    requires layer { l < length (layers_of d.now c) }
    ensures { own_in d.now c t l ≡ Some result }
{
    let doc = d.doc();
    let layer = &doc.comps.items()[c as usize].layers.items()[l as usize];
    matrix_at(doc, &layer.ks, t)
}

//! A layer and its ancestors.
ghost use Rattle.std.specs.Prelude.{◌≡◌, ◌<◌, ◌∷◌, length, IfOk};
ghost use Rattle.std.specs.List.{All};
ghost use Rattle.lot_refs.specs.Linked.{layers_of};
ghost use Rattle.lot_refs.specs.Parents.{ancestors_of};

use lot_refs::Linked;
use lot_types::{Memory, Seq};
use std::alloc::Global;

/// The numbers of layer `l` of composition `c` and of its ancestors: the layer first, then its parent. Want of memory
/// is the one refusal.
pub(crate) fn chain_of(alloc: Global, d: &Linked, c: u32, l: u32) -> Result<Seq<u32>, Memory>
    requires comp { c < length d.now.comps }
    requires layer { l < length (layers_of d.now c) }
    ensures chain { IfOk result (λ chain. chain ≡ l ∷ ancestors_of (layers_of d.now c) l) }
    ensures within { IfOk result (λ chain. All (λ k. k < length (layers_of d.now c)) chain) }
{
    let mut chain = Seq::new(alloc);
    chain.push(l)?;
    let mut at = l;
    while let Some(k) = d.parent_of(c, at) {
        chain.push(k)?;
        at = k;
    }
    Ok(chain)
}

//! Documents whose references hold.

ghost use Rattle.std.specs.Prelude.{◌≡◌, ◌<◌, ◌≤◌, [], length, IfOk, IfErr};
ghost use Rattle.std.specs.List.{All};
ghost use Rattle.lot_types.specs.Refusals.{Fails};
ghost use Rattle.lot_refs.specs.Linked.{IsValid, layers_of};
ghost use Rattle.lot_types.specs.WellFormed.{IsWellFormed};
ghost use Rattle.lot_types.specs.Limits.{max_layers};
ghost use Rattle.lot_refs.specs.Drawn.{drawn_layers};
ghost use Rattle.lot_refs.specs.Parents.{parents, parent_of, BeginsChain};
ghost use Rattle.lot_refs.specs.RefFaults.{ref_faults};

use crate::drawn::list_drawn;
use crate::parent_faults::find_fault;
use crate::parents::link_parents;
use lot_types::{Doc, Read, Refusal, Seq};
use std::alloc::Global;
use std::marker::Model;

/// Checks the references of a document that was read, in time that grows with its layers times the logarithm of their
/// number. It refuses the first fault: [`FaultCode::NoLayer`] where a `parent` is the `ind` of no layer of the
/// composition, and [`FaultCode::Cycle`] where a chain of parents comes back to the layer. Of several layers with one
/// `ind` the first counts, and only the layers that lie on a circle have the fault. Compositions come in order, the
/// assets first, and in each the layers. The pointer is that of the `parent`, from the root of the document.
///
/// [`FaultCode::NoLayer`]: lot_types::FaultCode::NoLayer
/// [`FaultCode::Cycle`]: lot_types::FaultCode::Cycle
pub fn check_refs(alloc: Global, r: Read) -> Result<Linked, Refusal>
    requires { IsWellFormed r }
    ensures faultless { IfOk result (λ _. ref_faults r ≡ []) }
    ensures value { IfOk result (λ linked. linked ≡ r.doc) }
    ensures refused { IfErr result (λ e. Fails e (ref_faults r)) }
{
    let parents = link_parents(alloc, r.doc.comps.items())?;
    if let Some(found) = find_fault(alloc, r.doc.comps.items(), parents.items())? {
        return Err(found.refusal(alloc, &r.doc));
    }
    let drawn = list_drawn(alloc, r.doc.comps.items())?;
    Ok(Linked {
        doc: r.doc,
        parents,
        drawn,
    })
}

/// A document whose references hold, with the layers that they lead to. Contracts see the document.
#[derive(Drop)]
pub struct Linked {
    doc: Doc,
    /// The parent of each layer of each composition.
    parents: Seq<Seq<Option<u32>>>,
    /// The layers of each composition that are drawn by themselves.
    drawn: Seq<Seq<u32>>,
}

impl Model for Linked {
    ghost use Rattle.std.specs.Prelude.{◌≡◌};
    ghost use Rattle.std.specs.Coded.{codes};
    ghost use Rattle.lot_types.specs.contracts.item.Item as item;
    ghost use Rattle.lot_types.specs.declared.doc.Doc.{Doc};
    ghost use Rattle.lot_refs.specs.Drawn.{drawn_tables};
    ghost use Rattle.lot_refs.specs.Linked.{IsValid, parent_tables};

    ghost Value = { Doc };

    ghost coded = { Prim.hlevel (codes, item.the_row.coded) };

    ghost view = { λ it. it.doc };

    ghost invariant = { λ it. (it.parents ≡ parent_tables it.doc.comps)
        × (it.drawn ≡ drawn_tables it.doc.comps) × IsValid it.doc };
}

impl Linked {
    /// The document.
    pub fn doc(&self) -> &Doc
        ensures value { result.now ≡ self.now }
        ensures valid { IsValid self.now }
    {
        &self.doc
    }

    /// The parent of layer `l` of composition `c`. It takes constant time and no memory.
    #[tactic(auto, using(crate::proofs::Faultless::begins_chain))]
    pub fn parent_of(&self, c: u32, l: u32) -> Option<u32>
        requires comp { c < length self.now.comps }
        requires layer { l < length (layers_of self.now c) }
        ensures value { result ≡ parent_of (layers_of self.now c) l }
        ensures chain { BeginsChain (parents (layers_of self.now c)) l result }
    {
        let parent = self.look_up(c, l);
        parent
    }

    /// The numbers of the layers of composition `c` that are drawn by themselves, in order. It takes constant time
    /// and no memory.
    pub fn drawn_layers(&self, c: u32) -> &[u32]
        requires comp { c < length self.now.comps }
        ensures value { result.now ≡ drawn_layers (layers_of self.now c) }
        ensures within { All (λ l. l < length (layers_of self.now c)) result.now }
        ensures few { length result.now ≤ max_layers }
    {
        self.list_of(c)
    }

    /// What the table of drawn layers has for a composition.
    fn list_of(&self, c: u32) -> &[u32]
        requires comp { c < length self.now.comps }
        ensures value { result.now ≡ drawn_layers (layers_of self.now c) }
        ensures valid { IsValid self.now }
    {
        self.drawn.items()[c as usize].items()
    }

    /// What the table of parents has for a layer.
    fn look_up(&self, c: u32, l: u32) -> Option<u32>
        requires comp { c < length self.now.comps }
        requires layer { l < length (layers_of self.now c) }
        ensures value { result ≡ parent_of (layers_of self.now c) l }
        ensures valid { IsValid self.now }
    {
        self.parents.items()[c as usize].items()[l as usize]
    }
}

//! Faults of references.

ghost use Rattle.std.specs.Prelude.{◌≡◌, [], ◌∷◌, IfOk};
ghost use Rattle.lot_types.specs.Refusals.{Fails};
ghost use Rattle.lot_refs.specs.RefFaults.{comp_place, fault_at, member_name, place_in, reported};

use lot_json::Pointer;
use lot_types::{Doc, Fault, FaultCode, Memory, Refusal};
use std::alloc::Global;

/// The member of a layer that names what is not there, or leads back.
#[derive(Clone, Copy)]
pub enum Member {
    /// The number of the parent.
    Parent,
}

impl Member {
    /// Its name in a document.
    fn name(self) -> &'static str
        ensures { result.now ≡ member_name self }
    {
        match self {
            Member::Parent => "parent",
        }
    }
}

/// A fault of a reference: what is wrong, and at which member of which layer.
#[derive(Clone, Copy)]
pub struct RefFault {
    pub code: FaultCode,
    /// The number of the composition, from 0.
    pub comp: u32,
    /// The number of the layer in its composition, from 0.
    pub layer: u32,
    pub member: Member,
}

impl RefFault {
    /// The refusal that reports this fault of a document. It is [`Refusal::Memory`] where there is none for the text of
    /// the place.
    pub fn refusal(self, alloc: Global, d: &Doc) -> Refusal
        ensures { Fails result (reported d.now self ∷ []) }
    {
        match self.place(alloc, d) {
            Ok(place) => refusal_at(self.code, &place),
            Err(_) => Refusal::Memory,
        }
    }

    /// The path to the member.
    fn place(self, alloc: Global, d: &Doc) -> Result<Pointer, Memory>
        ensures { IfOk result (λ place. place ≡ place_in d.now self) }
    {
        let mut place = path_to_comp(alloc, d, self.comp)?;
        place.push_name("layers".as_bytes())?;
        place.push_index(self.layer as u64)?;
        place.push_name(self.member.name().as_bytes())?;
        Ok(place)
    }
}

/// The path to a composition: the root for the main composition, which is the last, and else the asset.
fn path_to_comp(alloc: Global, d: &Doc, c: u32) -> Result<Pointer, Memory>
    ensures { IfOk result (λ place. place ≡ comp_place d.now c) }
{
    let mut place = Pointer::new(alloc)?;
    if c as usize + 1 == d.comps.items().len() {
        return Ok(place);
    }
    place.push_name("assets".as_bytes())?;
    place.push_index(c as u64)?;
    Ok(place)
}

/// The refusal for a fault at this place.
fn refusal_at(code: FaultCode, place: &Pointer) -> Refusal
    ensures { Fails result (fault_at code place.now ∷ []) }
{
    match place.text() {
        Ok(pointer) => Refusal::Fault(Fault { code, pointer }),
        Err(_) => Refusal::Memory,
    }
}

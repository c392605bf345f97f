//! Features of a layer that are not supported.
ghost use Rattle.lot_read.specs.Members.{RowGives, SameMembers};
ghost use Rattle.lot_doc.specs.Feature.{normal_blend, no_items, left_out};

use lot_json::{Json, Pointer};
use lot_read::{Members, NumberValue, Reader, Unset, refusal_at};
use lot_types::{FaultCode, Refusal, Seq, Use};

/// Reads the blend mode 0. Any other number is [`FaultCode::Unsupported`], one beyond the range of [`lot_types::Fx`] is
/// [`FaultCode::Range`], and any other value is [`FaultCode::Kind`].
#[derive(Clone, Copy)]
pub(crate) struct NormalBlend;

impl Reader for NormalBlend {
    type Value = ();

    ghost gives = { λ _. normal_blend };

    #[tactic(auto, using(lot_read::proofs::Faults::first_of_prefix), unfolding(crate::specs::Feature::normal_blend))]
    fn read(&self, at: &mut Pointer, v: &Json, uses: &mut Seq<Use>) -> Result<(), Refusal> {
        let mode = NumberValue::Any.read(at, v, uses)?;
        if mode.get() != 0 {
            return Err(refusal_at(FaultCode::Unsupported, at));
        }
        Ok(())
    }
}

/// Reads a list without items. One that has any is [`FaultCode::Unsupported`], and they are not read. Any other value
/// is [`FaultCode::Kind`].
#[derive(Clone, Copy)]
struct NoItems;

impl Reader for NoItems {
    type Value = ();

    ghost gives = { λ _. no_items };

    #[tactic(auto, unfolding(crate::specs::Feature::no_items))]
    fn read(&self, at: &mut Pointer, v: &Json, uses: &mut Seq<Use>) -> Result<(), Refusal> {
        match v {
            Json::Items(items) => match items.items() {
                [] => Ok(()),
                _ => Err(refusal_at(FaultCode::Unsupported, at)),
            },
            _ => Err(refusal_at(FaultCode::Kind, at)),
        }
    }
}

/// Refuses three dimensions, auto-orient, blend modes, effects and layer styles: a layer has none of them. The fault of
/// one that it has is [`FaultCode::Unsupported`] at its member.
#[tactic(auto, using(lot_read::proofs::Faults::first_of_prefix), unfolding(crate::specs::Feature::left_out))]
pub fn refuse_left_out(members: &mut Members) -> Result<(), Refusal>
    ensures gives { RowGives result members.old members.new left_out }
    ensures same { SameMembers members.old members.new }
{
    members.optional("ddd", &Unset, false)?;
    members.optional("ao", &Unset, false)?;
    members.optional("bm", &NormalBlend, ())?;
    members.optional("ef", &NoItems, ())?;
    members.optional("sy", &NoItems, ())?;
    Ok(())
}

//! The members that all items of shape layers have.
ghost use Rattle.lot_read.specs.Members.{RowGives, SameMembers};
ghost use Rattle.lot_doc.specs.ItemHead.{head_rows};

use crate::feature::NormalBlend;
use lot_read::{Flag, Members};
use lot_types::Refusal;

/// Reads the flag `hd`, which is false where it is absent, and the blend mode, which is 0.
#[tactic(auto, using(lot_read::proofs::Faults::first_of_prefix), unfolding(crate::specs::ItemHead::head_rows))]
pub(crate) fn read_head(members: &mut Members) -> Result<bool, Refusal>
    ensures gives { RowGives result members.old members.new head_rows }
    ensures same { SameMembers members.old members.new }
{
    let hidden = members.optional("hd", &Flag, false)?;
    members.optional("bm", &NormalBlend, ())?;
    Ok(hidden)
}

//! The reader of ellipses.
ghost use Rattle.lot_read.specs.Members.{RowGives, SameMembers};
ghost use Rattle.lot_read.specs.SlotNames.{names_in};
ghost use Rattle.lot_doc.specs.Shape.{ellipse_rows};

use crate::item_head::read_head;
use lot_read::{Members, NumberValue, SlotNames, VectorValue, needed_property};
use lot_types::{Item, Refusal};

/// Reads an ellipse: its center `p`, its size `s` and its direction `d`.
#[tactic(auto, using(lot_read::proofs::Faults::first_of_prefix), unfolding(crate::specs::Shape::ellipse_rows))]
pub(crate) fn read_ellipse(names: &SlotNames, members: &mut Members) -> Result<Item, Refusal>
    ensures gives { RowGives result members.old members.new (ellipse_rows (names_in names.now)) }
    ensures same { SameMembers members.old members.new }
{
    let hidden = read_head(members)?;
    let p = needed_property(VectorValue, names, "p", members)?;
    let s = needed_property(VectorValue, names, "s", members)?;
    let d = members.maybe("d", &NumberValue::Any)?;
    Ok(Item::Ellipse { hidden, p, s, d })
}

//! The reader of rectangles.
ghost use Rattle.lot_read.specs.Members.{RowGives, SameMembers};
ghost use Rattle.lot_read.specs.SlotNames.{names_in};
ghost use Rattle.lot_doc.specs.Shape.{rectangle_rows};

use crate::item_head::read_head;
use lot_read::{Members, NumberValue, SlotNames, VectorValue, needed_property, scalar_or};
use lot_types::{Fx, Item, Refusal};

/// Reads a rectangle: its center `p`, its size `s`, the radius `r` of its corners, which is 0 where it is absent, and
/// its direction `d`.
#[tactic(auto, using(lot_read::proofs::Faults::first_of_prefix), unfolding(crate::specs::Shape::rectangle_rows))]
pub(crate) fn read_rectangle(names: &SlotNames, members: &mut Members) -> Result<Item, Refusal>
    ensures gives { RowGives result members.old members.new (rectangle_rows (names_in names.now)) }
    ensures same { SameMembers members.old members.new }
{
    let hidden = read_head(members)?;
    let p = needed_property(VectorValue, names, "p", members)?;
    let s = needed_property(VectorValue, names, "s", members)?;
    let r = scalar_or(Fx::ZERO, names, "r", members)?;
    let d = members.maybe("d", &NumberValue::Any)?;
    Ok(Item::Rect { hidden, p, s, r, d })
}

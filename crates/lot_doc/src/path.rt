//! The reader of paths.
ghost use Rattle.lot_read.specs.Members.{RowGives, SameMembers};
ghost use Rattle.lot_read.specs.SlotNames.{names_in};
ghost use Rattle.lot_doc.specs.Shape.{path_rows};

use crate::item_head::read_head;
use lot_read::{BezierValue, Members, NumberValue, SlotNames, needed_property};
use lot_types::{Item, Refusal};

/// Reads a path: its curves `ks` and its direction `d`.
#[tactic(auto, using(lot_read::proofs::Faults::first_of_prefix), unfolding(crate::specs::Shape::path_rows))]
pub(crate) fn read_path(names: &SlotNames, members: &mut Members) -> Result<Item, Refusal>
    ensures gives { RowGives result members.old members.new (path_rows (names_in names.now)) }
    ensures same { SameMembers members.old members.new }
{
    let hidden = read_head(members)?;
    let ks = needed_property(BezierValue, names, "ks", members)?;
    let d = members.maybe("d", &NumberValue::Any)?;
    Ok(Item::Path { hidden, ks, d })
}

//! The reader of trims.
ghost use Rattle.lot_read.specs.Members.{RowGives, SameMembers};
ghost use Rattle.lot_read.specs.SlotNames.{names_in};
ghost use Rattle.lot_doc.specs.Trim.{trim_rows};

use crate::item_head::read_head;
use lot_read::{Choice, Members, SlotNames, hundred_per_cent, scalar_or};
use lot_types::{Fx, Item, Refusal};

const MODE: Choice = Choice { low: 1, high: 2 };

/// The mode of a trim that names none: each shape is trimmed by itself.
const EACH: u8 = 1;

/// Reads a trim: its start `s`, its end `e` and its offset `o`, which are 0, 100 per cent and 0 where they are absent,
/// and its mode `m`.
#[tactic(auto, using(lot_read::proofs::Faults::first_of_prefix), unfolding(crate::specs::Trim::trim_rows))]
pub(crate) fn read_trim(names: &SlotNames, members: &mut Members) -> Result<Item, Refusal>
    ensures gives { RowGives result members.old members.new (trim_rows (names_in names.now)) }
    ensures same { SameMembers members.old members.new }
{
    let hidden = read_head(members)?;
    let s = scalar_or(Fx::ZERO, names, "s", members)?;
    let e = scalar_or(hundred_per_cent(), names, "e", members)?;
    let o = scalar_or(Fx::ZERO, names, "o", members)?;
    let m = members.optional("m", &MODE, EACH)?;
    Ok(Item::Trim { hidden, s, e, o, m })
}

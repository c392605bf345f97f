//! The reader of fills.
ghost use Rattle.lot_read.specs.Members.{RowGives, SameMembers};
ghost use Rattle.lot_read.specs.SlotNames.{names_in};
ghost use Rattle.lot_doc.specs.Style.{fill_rule, fill_rows};

use crate::item_head::read_head;
use lot_read::{
    Choice, ColorValue, Members, SlotNames, hundred_per_cent, needed_property, scalar_or,
};
use lot_types::{Item, Refusal};

const RULE: Choice = Choice { low: 1, high: 2 };

/// The rule by which a point is inside where a fill names none: `nonzero`.
const NONZERO: u8 = 1;

/// Reads a fill: its color `c`, its opacity `o`, which is 100 per cent where it is absent, and its rule `r`.
#[tactic(auto, using(lot_read::proofs::Faults::first_of_prefix), unfolding(crate::specs::Style::fill_rows))]
pub(crate) fn read_fill(names: &SlotNames, members: &mut Members) -> Result<Item, Refusal>
    ensures gives { RowGives result members.old members.new (fill_rows (names_in names.now)) }
    ensures same { SameMembers members.old members.new }
{
    let hidden = read_head(members)?;
    let c = needed_property(ColorValue, names, "c", members)?;
    let o = scalar_or(hundred_per_cent(), names, "o", members)?;
    let r = read_fill_rule(members)?;
    Ok(Item::Fill { hidden, c, o, r })
}

/// Reads the rule `r` by which a point is inside, which is `nonzero` where it is absent.
pub(crate) fn read_fill_rule(members: &mut Members) -> Result<u8, Refusal>
    ensures gives { RowGives result members.old members.new fill_rule }
    ensures same { SameMembers members.old members.new }
{
    members.optional("r", &RULE, NONZERO)
}

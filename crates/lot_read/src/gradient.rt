//! The reader of the colors of gradients.
ghost use Rattle.std.specs.Prelude.{◌≡◌, [], ◌<◌, ◌≤◌, Some, OnOk};
ghost use Rattle.lot_types.specs.Limits.{max_list_items};
ghost use Rattle.lot_types.specs.declared.slot.SlotKind.TheVariants as slot_kind;
ghost use Rattle.lot_types.specs.Ramp.{HasStops};
ghost use Rattle.lot_read.specs.Gradient.{gradient, counted};
ghost use Rattle.lot_read.specs.Outcome.{Gives};

use crate::list::ListOf;
use crate::number::NumberValue;
use crate::reader::{Reader, refusal_at};
use crate::value_kind::ValueKind;
use lot_json::{Json, Pointer};
use lot_types::{FaultCode, Gradient, MAX_LIST_ITEMS, Refusal, Seq, SlotKind, Use};

/// Each stop has an offset and three parts of a color.
const STOP_NUMBERS: u64 = 4;

/// Reads the colors of a gradient that has this number of stops, at least one: a list of at most [`MAX_LIST_ITEMS`]
/// numbers, four for each stop and after them pairs of an offset and an opacity. Any other number of them is
/// [`FaultCode::Count`], after the faults of the items.
#[derive(Clone, Copy)]
pub struct GradientValue {
    pub stops: u32,
    ghost some: { 0 < stops },
}

const NUMBERS: ListOf<NumberValue> = ListOf {
    max: MAX_LIST_ITEMS,
    item: NumberValue::Any,
};

impl Reader for GradientValue {
    type Value = Gradient;

    ghost gives = { λ g. gradient g.stops };

    #[tactic(auto, using(crate::proofs::Faults::first_of_prefix, crate::proofs::Lengths::list_length), unfolding(crate::specs::Gradient::gradient))]
    fn read(&self, at: &mut Pointer, v: &Json, uses: &mut Seq<Use>) -> Result<Gradient, Refusal> {
        let flat = NUMBERS.read(at, v, uses)?;
        refuse_miscounted(self.stops, flat.items().len(), at)?;
        Ok(Gradient {
            stops: self.stops,
            flat,
        })
    }
}

impl ValueKind for GradientValue {
    ghost kind = { λ g. slot_kind.Gradient g.stops };

    fn kind(&self) -> SlotKind {
        SlotKind::Gradient(self.stops)
    }
}

/// Refuses a list of n numbers that are not four for each stop and pairs after them.
#[tactic(auto, unfolding(crate::specs::Gradient::counted))]
fn refuse_miscounted(stops: u32, n: usize, at: &Pointer) -> Result<(), Refusal>
    requires some { 0 < stops }
    requires few { n ≤ max_list_items }
    ensures gives { Gives result [] [] (counted stops at.now (Some n)) }
    ensures stops { OnOk result (HasStops stops n) }
{
    let colors = STOP_NUMBERS * (stops as u64);
    let n = n as u64;
    if n < colors || (n - colors) % 2 != 0 {
        return Err(refusal_at(FaultCode::Count, at));
    }
    Ok(())
}

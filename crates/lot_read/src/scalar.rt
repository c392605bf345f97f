//! The reader of scalars.
ghost use Rattle.lot_types.specs.declared.slot.SlotKind.TheVariants as slot_kind;
ghost use Rattle.lot_read.specs.Number.{scalar};

use crate::number::NumberValue;
use crate::reader::Reader;
use crate::value_kind::ValueKind;
use crate::value_or_first::ValueOrFirst;
use lot_json::{Json, Pointer};
use lot_types::{Fx, Refusal, Seq, SlotKind, Use};

/// Reads a scalar: a number, or the first item of a list, which is one. See [`NumberValue`] and [`ValueOrFirst`] for
/// the faults.
#[derive(Clone, Copy)]
pub struct ScalarValue;

const SCALAR: ValueOrFirst<NumberValue> = ValueOrFirst {
    value: NumberValue::Any,
};

impl Reader for ScalarValue {
    type Value = Fx;

    ghost gives = { λ _. scalar };

    fn read(&self, at: &mut Pointer, v: &Json, uses: &mut Seq<Use>) -> Result<Fx, Refusal> {
        SCALAR.read(at, v, uses)
    }
}

impl ValueKind for ScalarValue {
    ghost kind = { λ _. slot_kind.Scalar };

    fn kind(&self) -> SlotKind {
        SlotKind::Scalar
    }
}

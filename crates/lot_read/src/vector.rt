//! The reader of vectors.
ghost use Rattle.lot_types.specs.declared.slot.SlotKind.TheVariants as slot_kind;
ghost use Rattle.lot_read.specs.Vector.{vector};

use crate::list::read_item;
use crate::number::NumberValue;
use crate::reader::{Reader, refusal_at};
use crate::value_kind::ValueKind;
use lot_json::{Json, Pointer};
use lot_types::{FaultCode, Point, Refusal, Seq, SlotKind, Use};

/// Reads a vector: the first two items of a list, which are numbers. Any other value is [`FaultCode::Kind`], and a
/// shorter list is [`FaultCode::Count`].
#[derive(Clone, Copy)]
pub struct VectorValue;

impl Reader for VectorValue {
    type Value = Point;

    ghost gives = { λ _. vector };

    #[tactic(auto, using(crate::proofs::Faults::first_of_prefix), unfolding(crate::specs::Vector::vector))]
    fn read(&self, at: &mut Pointer, v: &Json, uses: &mut Seq<Use>) -> Result<Point, Refusal> {
        match v {
            Json::Items(items) => match items.items() {
                [x, y, ..] => {
                    let x = read_item(0, &NumberValue::Any, at, x, uses)?;
                    let y = read_item(1, &NumberValue::Any, at, y, uses)?;
                    Ok(Point { x, y })
                }
                _ => Err(refusal_at(FaultCode::Count, at)),
            },
            _ => Err(refusal_at(FaultCode::Kind, at)),
        }
    }
}

impl ValueKind for VectorValue {
    ghost kind = { λ _. slot_kind.Vector };

    fn kind(&self) -> SlotKind {
        SlotKind::Vector
    }
}

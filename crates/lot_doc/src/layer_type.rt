//! The types of layers.
ghost use Rattle.lot_doc.specs.Layer.{layer_type};

use lot_json::{Json, Pointer};
use lot_read::{NumberValue, Reader, refusal_at};
use lot_types::{FaultCode, Refusal, Seq, Use};

/// The types of layers that are read.
#[derive(Clone, Copy)]
pub enum LayerType {
    /// A rectangle of one color. Its number is 1.
    Solid,
    /// A layer that shows nothing. Its number is 3.
    Null,
    /// A layer of shapes. Its number is 4.
    Shape,
}

/// The numbers of the types, in millionths.
const SOLID: i64 = 1_000_000;

const NULL: i64 = 3_000_000;

const SHAPE: i64 = 4_000_000;

/// The number of millionths that is 1.
const MILLION: u64 = 1_000_000;

/// Reads the type of a layer. A whole number that is no type is [`FaultCode::Unsupported`], any other number is
/// [`FaultCode::Value`], one beyond the range of [`lot_types::Fx`] is [`FaultCode::Range`], and any other value is
/// [`FaultCode::Kind`].
#[derive(Clone, Copy)]
pub struct LayerTypeValue;

impl Reader for LayerTypeValue {
    type Value = LayerType;

    ghost gives = { λ _. layer_type };

    #[tactic(auto, using(lot_read::proofs::Faults::first_of_prefix), unfolding(crate::specs::Layer::layer_type))]
    fn read(&self, at: &mut Pointer, v: &Json, uses: &mut Seq<Use>) -> Result<LayerType, Refusal> {
        let z = NumberValue::Any.read(at, v, uses)?.get();
        if z == SOLID {
            return Ok(LayerType::Solid);
        }
        if z == NULL {
            return Ok(LayerType::Null);
        }
        if z == SHAPE {
            return Ok(LayerType::Shape);
        }
        if z.unsigned_abs() % MILLION == 0 {
            return Err(refusal_at(FaultCode::Unsupported, at));
        }
        Err(refusal_at(FaultCode::Value, at))
    }
}

//! The reader of moments.
ghost use Rattle.lot_read.specs.Number.{any, number};

use crate::number::NumberValue;
use crate::reader::{Reader, refusal_at};
use lot_json::{Json, Pointer};
use lot_types::{FaultCode, Refusal, Seq, Time, Use};

/// Reads a moment of an animation: any number, of frames. Any other value is [`FaultCode::Kind`], and a number beyond
/// the range of [`Time`] is [`FaultCode::Range`].
#[derive(Clone, Copy)]
pub struct Moment;

impl Reader for Moment {
    type Value = Time;

    ghost gives = { λ _. number any };

    #[tactic(auto, unfolding(crate::specs::Number::number))]
    fn read(&self, at: &mut Pointer, v: &Json, uses: &mut Seq<Use>) -> Result<Time, Refusal> {
        let frames = NumberValue::Any.read(at, v, uses)?;
        match Time::new(frames.get()) {
            Some(t) => Ok(t),
            None => Err(refusal_at(FaultCode::Range, at)),
        }
    }
}

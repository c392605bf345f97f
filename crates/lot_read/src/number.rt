//! The reader of numbers.
ghost use Rattle.std.specs.Prelude.{◌≡◌};
ghost use Rattle.lot_read.specs.Number.{number, range_of};

use crate::reader::{Reader, refusal_at};
use lot_json::{Json, Number, Pointer};
use lot_types::{FaultCode, Fx, Refusal, Seq, Use};

/// Reads a number of a range. Any other value is [`FaultCode::Kind`], and a number out of the range, or beyond that of
/// [`Fx`], is [`FaultCode::Range`].
#[derive(Clone, Copy)]
pub enum NumberValue {
    Any,
    /// A number that is 0 or above.
    NotBelowZero,
    AboveZero,
}

impl NumberValue {
    /// Whether a number is in the range.
    fn contains(self, x: Fx) -> bool
        ensures { result ≡ range_of self x }
    {
        match self {
            NumberValue::Any => true,
            NumberValue::NotBelowZero => 0 <= x.get(),
            NumberValue::AboveZero => 0 < x.get(),
        }
    }
}

impl Reader for NumberValue {
    type Value = Fx;

    ghost gives = { λ n. number (range_of n) };

    #[tactic(auto, unfolding(crate::specs::Number::number))]
    fn read(&self, at: &mut Pointer, v: &Json, uses: &mut Seq<Use>) -> Result<Fx, Refusal> {
        match v {
            Json::Number(Number::Micro(x)) if self.contains(*x) => Ok(*x),
            Json::Number(_) => Err(refusal_at(FaultCode::Range, at)),
            _ => Err(refusal_at(FaultCode::Kind, at)),
        }
    }
}

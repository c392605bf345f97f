//! The reader of whole numbers.
ghost use Rattle.std.specs.Prelude.{◌≡◌, ◌≤◌, IfSome};
ghost use Rattle.lot_read.specs.Whole.{whole, whole_number as whole_number_in, allowed as allowed_in};

use crate::number::NumberValue;
use crate::reader::{Reader, refusal_at};
use lot_json::{Json, Pointer};
use lot_types::{FaultCode, Fx, Refusal, Seq, Use};

/// The number of millionths that is 1.
const MILLION: u64 = 1_000_000;

/// Reads a whole number from `low` to `high`, both included. Any other number is [`FaultCode::Value`], one beyond the
/// range of [`Fx`] is [`FaultCode::Range`], and any other value is [`FaultCode::Kind`].
#[derive(Clone, Copy)]
pub struct Whole {
    pub low: u32,
    pub high: u32,
}

impl Reader for Whole {
    type Value = u32;

    ghost gives = { λ w. whole w.low w.high };

    #[tactic(auto, using(crate::proofs::Faults::first_of_prefix), unfolding(crate::specs::Whole::whole))]
    fn read(&self, at: &mut Pointer, v: &Json, uses: &mut Seq<Use>) -> Result<u32, Refusal> {
        let x = NumberValue::Any.read(at, v, uses)?;
        match allowed(self.low, self.high, x) {
            Some(n) => Ok(n),
            None => Err(refusal_at(FaultCode::Value, at)),
        }
    }
}

/// Reads a whole number from `low` to `high`, both included, that says which of a few choices is taken. The faults are
/// those of [`Whole`].
#[derive(Clone, Copy)]
pub struct Choice {
    pub low: u8,
    pub high: u8,
}

impl Reader for Choice {
    type Value = u8;

    ghost gives = { λ c. whole c.low c.high };

    #[tactic(auto, using(crate::proofs::Faults::first_of_prefix), unfolding(crate::specs::Whole::whole))]
    fn read(&self, at: &mut Pointer, v: &Json, uses: &mut Seq<Use>) -> Result<u8, Refusal> {
        let x = NumberValue::Any.read(at, v, uses)?;
        match allowed(self.low as u32, self.high as u32, x) {
            Some(n) => Ok(n as u8),
            None => Err(refusal_at(FaultCode::Value, at)),
        }
    }
}

/// The number, where it is a whole one from `low` to `high`.
fn allowed(low: u32, high: u32, x: Fx) -> Option<u32>
    ensures value { result ≡ allowed_in low high x }
    ensures within { IfSome result (λ n. n ≤ high) }
{
    let n = whole_number(x)?;
    if low as u64 <= n && n <= high as u64 {
        Some(n as u32)
    } else {
        None
    }
}

/// The number, where it is a whole one that is not below 0.
fn whole_number(x: Fx) -> Option<u64>
    ensures { result ≡ whole_number_in x }
{
    let z = x.get();
    if z < 0 {
        return None;
    }
    let n = z as u64;
    if n % MILLION == 0 {
        Some(n / MILLION)
    } else {
        None
    }
}

//! Readers of flags.
ghost use Rattle.lot_read.specs.Flag.{flag, unset};

use crate::reader::{Reader, refusal_at};
use lot_json::{Json, Number, Pointer};
use lot_types::{FaultCode, Refusal, Seq, Use};

/// Reads a flag: true, false, or a number, which is true where it is not 0. Any other value is [`FaultCode::Kind`],
/// and a number beyond the range of [`lot_types::Fx`] is [`FaultCode::Range`].
#[derive(Clone, Copy)]
pub struct Flag;

impl Reader for Flag {
    type Value = bool;

    ghost gives = { λ _. flag };

    #[tactic(auto, unfolding(crate::specs::Flag::flag))]
    fn read(&self, at: &mut Pointer, v: &Json, uses: &mut Seq<Use>) -> Result<bool, Refusal> {
        match v {
            Json::Bool(b) => Ok(*b),
            Json::Number(Number::Micro(x)) => Ok(x.get() != 0),
            Json::Number(Number::Beyond) => Err(refusal_at(FaultCode::Range, at)),
            _ => Err(refusal_at(FaultCode::Kind, at)),
        }
    }
}

/// Reads the flag of a feature that is left out. Where it is true it is [`FaultCode::Unsupported`].
#[derive(Clone, Copy)]
pub struct Unset;

impl Reader for Unset {
    type Value = bool;

    ghost gives = { λ _. unset };

    #[tactic(auto, using(crate::proofs::Faults::first_of_prefix), unfolding(crate::specs::Flag::unset))]
    fn read(&self, at: &mut Pointer, v: &Json, uses: &mut Seq<Use>) -> Result<bool, Refusal> {
        if Flag.read(at, v, uses)? {
            return Err(refusal_at(FaultCode::Unsupported, at));
        }
        Ok(false)
    }
}

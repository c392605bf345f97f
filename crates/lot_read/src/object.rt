//! The reader of objects.
ghost use Rattle.lot_read.specs.Rows.{object};

use crate::members::{Members, Rows};
use crate::reader::{Reader, refusal_at};
use lot_json::{Json, Pointer};
use lot_types::{FaultCode, Refusal, Seq, Use};

/// Reads an object by these rows. Any other value is [`FaultCode::Kind`].
#[derive(Clone, Copy)]
pub struct Object<R> {
    pub rows: R,
}

impl<R: Rows> Reader for Object<R> {
    type Value = R::Value;

    ghost gives = { λ o. object (R.rows o.rows) };

    #[tactic(auto, using(crate::proofs::Faults::first_of_prefix), unfolding(crate::specs::Rows::object, crate::specs::Members::fixed_in))]
    fn read(&self, at: &mut Pointer, v: &Json, uses: &mut Seq<Use>) -> Result<R::Value, Refusal> {
        match v {
            Json::Members(members) => {
                let mut members = Members { at, members, uses };
                self.rows.read_rows(&mut members)
            }
            _ => Err(refusal_at(FaultCode::Kind, at)),
        }
    }
}

//! The reader of values that may be wrapped in a list.
ghost use Rattle.lot_read.specs.Lists.{value_or_first};

use crate::list::read_item;
use crate::reader::{Reader, refusal_at};
use lot_json::{Json, Pointer};
use lot_types::{FaultCode, Refusal, Seq, Use};

/// Reads a value, or the first item of a list, of which the rest is not read. A list without items is
/// [`FaultCode::Count`].
#[derive(Clone, Copy)]
pub struct ValueOrFirst<R> {
    pub value: R,
}

impl<R: Reader> Reader for ValueOrFirst<R> {
    type Value = R::Value;

    ghost gives = { λ f. value_or_first (R.gives f.value) };

    #[tactic(auto, using(crate::proofs::Faults::first_of_prefix), unfolding(crate::specs::Lists::value_or_first))]
    fn read(&self, at: &mut Pointer, v: &Json, uses: &mut Seq<Use>) -> Result<R::Value, Refusal> {
        match v {
            Json::Items(items) => match items.items() {
                [first, ..] => read_item(0, &self.value, at, first, uses),
                [] => Err(refusal_at(FaultCode::Count, at)),
            },
            _ => self.value.read(at, v, uses),
        }
    }
}

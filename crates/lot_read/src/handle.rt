//! The reader of the handles of keyframes.
ghost use Rattle.std.specs.Prelude.{◌≡◌};
ghost use Rattle.lot_read.specs.Handle.{coordinates, handle_rows, three_of as three_in};

use crate::list::ListOf;
use crate::members::{Members, Rows};
use crate::number::NumberValue;
use crate::reader::{Reader, refusal_at};
use lot_json::{Json, Pointer};
use lot_types::{Ease3, FaultCode, Fx, MAX_LIST_ITEMS, Refusal, Seq, Use};

/// Reads the handles of the components of a value: an object with the coordinates `x` and `y`, which are limited to
/// their ranges.
#[derive(Clone, Copy)]
pub(crate) struct HandleRows;

impl Rows for HandleRows {
    type Value = Ease3;

    ghost rows = { λ _. handle_rows };

    #[tactic(auto, using(crate::proofs::Faults::first_of_prefix), unfolding(crate::specs::Handle::handle_rows))]
    fn read_rows(&self, members: &mut Members) -> Result<Ease3, Refusal> {
        let x = members.needed("x", &Coordinates)?;
        let y = members.needed("y", &Coordinates)?;
        Ok(Ease3::limit(x, y))
    }
}

/// Reads a coordinate for each of three components: a number for all of them, or a list of numbers, whose last counts
/// for the components that it has not. A list without items is [`FaultCode::Count`].
#[derive(Clone, Copy)]
struct Coordinates;

const NUMBERS: ListOf<NumberValue> = ListOf {
    max: MAX_LIST_ITEMS,
    item: NumberValue::Any,
};

impl Reader for Coordinates {
    type Value = [i64; 3];

    ghost gives = { λ _. coordinates };

    #[tactic(auto, using(crate::proofs::Faults::first_of_prefix), unfolding(crate::specs::Handle::coordinates))]
    fn read(&self, at: &mut Pointer, v: &Json, uses: &mut Seq<Use>) -> Result<[i64; 3], Refusal> {
        match v {
            Json::Items(_) => {
                let numbers = NUMBERS.read(at, v, uses)?;
                match three_of(numbers.items()) {
                    Some(three) => Ok(three),
                    None => Err(refusal_at(FaultCode::Count, at)),
                }
            }
            _ => {
                let x = NumberValue::Any.read(at, v, uses)?.get();
                Ok([x, x, x])
            }
        }
    }
}

/// The first three numbers. Where there are fewer, the last counts for the rest.
fn three_of(numbers: &[Fx]) -> Option<[i64; 3]>
    ensures { result ≡ three_in numbers.now }
{
    match numbers {
        [x, y, z, ..] => Some([x.get(), y.get(), z.get()]),
        [x, y] => Some([x.get(), y.get(), y.get()]),
        [x] => Some([x.get(), x.get(), x.get()]),
        [] => None,
    }
}

//! Readers of lists.
ghost use Rattle.std.specs.Prelude.{◌≡◌};
ghost use Rattle.lot_read.specs.Findings.{item};
ghost use Rattle.lot_read.specs.Lists.{each, list};
ghost use Rattle.lot_read.specs.Outcome.{Gives};

use crate::reader::{Reader, refusal_at};
use lot_json::{Json, Pointer};
use lot_types::{FaultCode, Refusal, Seq, Use};

/// Reads a whole list, item by item. Any other value is [`FaultCode::Kind`], and a list of more than `max` items is
/// [`FaultCode::TooMany`].
#[derive(Clone, Copy)]
pub struct ListOf<R> {
    pub max: usize,
    pub item: R,
}

/// Reads the item `v` of this index.
pub(crate) fn read_item<R: Reader>(
    i: u64,
    reader: &R,
    at: &mut Pointer,
    v: &Json,
    uses: &mut Seq<Use>,
) -> Result<R::Value, Refusal>
    ensures gives { Gives result uses.old uses.new (R.gives reader.now (item at.old i) v.now) }
    ensures at { at.new ≡ at.old }
{
    at.push_index(i)?;
    let read = reader.read(at, v, uses);
    at.pop();
    read
}

/// Reads the items in order.
#[tactic(auto, using(crate::proofs::Faults::first_of_prefix), unfolding(crate::specs::Lists::each))]
fn read_each<R: Reader>(
    reader: &R,
    at: &mut Pointer,
    items: &[Json],
    uses: &mut Seq<Use>,
) -> Result<Seq<R::Value>, Refusal>
    ensures gives { Gives result uses.old uses.new (each (R.gives reader.now) at.old 0 items.now) }
    ensures at { at.new ≡ at.old }
{
    let mut made = Seq::new(at.allocator());
    for (i, v) in items.iter().enumerate() {
        let x = read_item(i as u64, reader, at, v, uses)?;
        made.push(x)?;
    }
    Ok(made)
}

impl<R: Reader> Reader for ListOf<R> {
    type Value = Seq<R::Value>;

    ghost gives = { λ l. list l.max (R.gives l.item) };

    #[tactic(auto, using(crate::proofs::Faults::first_of_prefix), unfolding(crate::specs::Lists::list))]
    fn read(
        &self,
        at: &mut Pointer,
        v: &Json,
        uses: &mut Seq<Use>,
    ) -> Result<Seq<R::Value>, Refusal> {
        match v {
            Json::Items(items) => {
                if self.max < items.items().len() {
                    return Err(refusal_at(FaultCode::TooMany, at));
                }
                read_each(&self.item, at, items.items(), uses)
            }
            _ => Err(refusal_at(FaultCode::Kind, at)),
        }
    }
}

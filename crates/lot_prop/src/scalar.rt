//! Scalars over time.
ghost use Rattle.std.specs.Prelude.{◌≡◌, Some};
ghost use Rattle.lot_prop.specs.Slots.{scalar_value};
ghost use Rattle.lot_types.specs.Slots.{HasScalar};
ghost use Rattle.lot_prop.specs.Value.{scalar_between, track_value};

use crate::found::Found;
use crate::part::Part;
use lot_types::{Doc, Fx, Prop, SlotValue, Time, Track};

/// The value of a scalar property of a document at a time, in millionths, limited to the range.
///
/// A slot that the property names has to be there and to be a scalar. It takes no memory.
#[tactic(auto, unfolding(crate::specs::Slots::scalar_value, lot_types::specs::Slots::HasValue))]
pub fn value_scalar(d: &Doc, p: &Prop<Fx>, t: Time) -> Fx
    requires { HasScalar d.now p.now }
    ensures { scalar_value d.now p.now t ≡ Some result }
{
    match p {
        Prop::Own(track) => scalar_at(track, t),
        Prop::Slot(slot) => match &d.slots.items()[*slot as usize].value {
            SlotValue::Scalar(track) => scalar_at(track, t),
            _ => unreachable!(),
        },
    }
}

fn scalar_at(track: &Track<Fx>, t: Time) -> Fx
    ensures { track_value scalar_between t track.now ≡ Some result }
{
    match track {
        Track::Still(x) => *x,
        Track::Moving(keys) => {
            let items = keys.items();
            match Found::of(keys, t) {
                Found::Held(k) => items[k].value,
                Found::Between(k) => {
                    let key = &items[k];
                    let next = &items[k + 1];
                    Part::at(key, next, t).eased(0, key.value, next.value)
                }
            }
        }
    }
}

//! Vectors over time.
ghost use Rattle.std.specs.Prelude.{◌≡◌, Some};
ghost use Rattle.lot_prop.specs.Slots.{vector_value};
ghost use Rattle.lot_types.specs.Slots.{HasVector};
ghost use Rattle.lot_prop.specs.Value.{vector_between, track_value};

use crate::found::Found;
use crate::part::Part;
use lot_types::{Doc, Point, Prop, SlotValue, Time, Track};

/// The value of a vector property of a document at a time, in millionths, limited to the range. Where
/// the keyframe has tangents it moves along the curve that they give, by the fraction of its length that the first
/// component of the easing says.
///
/// A slot that the property names has to be there and to be a vector. It takes no memory.
#[tactic(auto, unfolding(crate::specs::Slots::vector_value, lot_types::specs::Slots::HasValue))]
pub fn value_vector(d: &Doc, p: &Prop<Point>, t: Time) -> Point
    requires { HasVector d.now p.now }
    ensures { vector_value d.now p.now t ≡ Some result }
{
    match p {
        Prop::Own(track) => vector_at(track, t),
        Prop::Slot(slot) => match &d.slots.items()[*slot as usize].value {
            SlotValue::Vector(track) => vector_at(track, t),
            _ => unreachable!(),
        },
    }
}

/// The value of a vector's track at a time, in millionths, limited to the range. It takes no memory.
pub(crate) fn vector_at(track: &Track<Point>, t: Time) -> Point
    ensures { track_value vector_between t track.now ≡ Some result }
{
    match track {
        Track::Still(p) => *p,
        Track::Moving(keys) => {
            let items = keys.items();
            match Found::of(keys, t) {
                Found::Held(k) => items[k].value,
                Found::Between(k) => {
                    let (key, next) = (&items[k], &items[k + 1]);
                    between(&Part::at(key, next, t), &key.value, &next.value)
                }
            }
        }
    }
}

/// The vector between two: on the curve of the keyframe, or each coordinate by itself.
fn between(part: &Part, p: &Point, q: &Point) -> Point
    ensures { result ≡ vector_between part.now p.now q.now }
{
    if part.is_spatial() {
        return part.on_curve(p, q);
    }
    Point {
        x: part.eased(0, p.x, q.x),
        y: part.eased(1, p.y, q.y),
    }
}

//! Colors over time.
ghost use Rattle.std.specs.Prelude.{◌≡◌, Some};
ghost use Rattle.lot_prop.specs.Slots.{color_value};
ghost use Rattle.lot_types.specs.Slots.{HasColor};
ghost use Rattle.lot_prop.specs.Value.{color_between, track_value};

use crate::found::Found;
use crate::part::Part;
use lot_types::{Color, Doc, Prop, SlotValue, Time, Track};

/// The value of a color property of a document at a time, in millionths, limited to the range: between keyframes a
/// component may be below 0 or above 1.
///
/// A slot that the property names has to be there and to be a color. It takes no memory.
#[tactic(auto, unfolding(crate::specs::Slots::color_value, lot_types::specs::Slots::HasValue))]
pub fn value_color(d: &Doc, p: &Prop<Color>, t: Time) -> Color
    requires { HasColor d.now p.now }
    ensures { color_value d.now p.now t ≡ Some result }
{
    match p {
        Prop::Own(track) => color_at(track, t),
        Prop::Slot(slot) => match &d.slots.items()[*slot as usize].value {
            SlotValue::Color(track) => color_at(track, t),
            _ => unreachable!(),
        },
    }
}

fn color_at(track: &Track<Color>, t: Time) -> Color
    ensures { track_value color_between t track.now ≡ Some result }
{
    match track {
        Track::Still(c) => *c,
        Track::Moving(keys) => {
            let items = keys.items();
            match Found::of(keys, t) {
                Found::Held(k) => items[k].value,
                Found::Between(k) => {
                    let (key, next) = (&items[k], &items[k + 1]);
                    let part = Part::at(key, next, t);
                    Color {
                        r: part.eased(0, key.value.r, next.value.r),
                        g: part.eased(1, key.value.g, next.value.g),
                        b: part.eased(2, key.value.b, next.value.b),
                    }
                }
            }
        }
    }
}

//! Gradients over time.
ghost use Rattle.std.specs.Prelude.{◌≡◌, Some, IfOk, length};
ghost use Rattle.lot_prop.specs.Slots.{gradient_value};
ghost use Rattle.lot_types.specs.Slots.{HasGradient};
ghost use Rattle.lot_prop.specs.Value.{gradient_between, numbers_between as numbers_in, track_value};

use crate::found::Found;
use crate::part::Part;
use lot_types::{Doc, Duplicate, Fx, Gradient, Memory, Prop, Seq, SlotValue, Time, Track};
use std::alloc::Global;

/// The value of a gradient property of a document at a time, in millionths, limited to the range. Want of memory is
/// the one refusal.
///
/// A slot that the property names has to be there and to be a gradient. Two gradients of different numbers of numbers
/// are not joined: the first is held.
#[tactic(auto, unfolding(crate::specs::Slots::gradient_value, lot_types::specs::Slots::HasValue))]
pub fn value_gradient(
    alloc: Global,
    d: &Doc,
    p: &Prop<Gradient>,
    t: Time,
) -> Result<Gradient, Memory>
    requires { HasGradient d.now p.now }
    ensures { IfOk result (λ x. gradient_value d.now p.now t ≡ Some x) }
{
    match p {
        Prop::Own(track) => gradient_at(alloc, track, t),
        Prop::Slot(slot) => match &d.slots.items()[*slot as usize].value {
            SlotValue::Gradient(track) => gradient_at(alloc, track, t),
            _ => unreachable!(),
        },
    }
}

fn gradient_at(alloc: Global, track: &Track<Gradient>, t: Time) -> Result<Gradient, Memory>
    ensures { IfOk result (λ x. track_value gradient_between t track.now ≡ Some x) }
{
    match track {
        Track::Still(g) => g.copy(),
        Track::Moving(keys) => {
            let items = keys.items();
            match Found::of(keys, t) {
                Found::Held(k) => items[k].value.copy(),
                Found::Between(k) => {
                    let (key, next) = (&items[k], &items[k + 1]);
                    between(alloc, &Part::at(key, next, t), &key.value, &next.value)
                }
            }
        }
    }
}

/// The gradient between two, or the first where their numbers of numbers differ.
fn between(alloc: Global, part: &Part, a: &Gradient, b: &Gradient) -> Result<Gradient, Memory>
    ensures { IfOk result (λ x. x ≡ gradient_between part.now a.now b.now) }
{
    if a.flat.items().len() != b.flat.items().len() {
        return a.copy();
    }
    let flat = numbers_between(alloc, part, &a.flat, &b.flat)?;
    Ok(Gradient {
        stops: a.stops,
        flat,
    })
}

fn numbers_between(
    alloc: Global,
    part: &Part,
    xs: &Seq<Fx>,
    ys: &Seq<Fx>,
) -> Result<Seq<Fx>, Memory>
    requires { length ys.now ≡ length xs.now }
    ensures value { IfOk result (λ made. made ≡ numbers_in part.now xs.now ys.now) }
    ensures length { IfOk result (λ made. length made ≡ length xs.now) }
{
    let progress = part.progress(0);
    let mut made = Seq::with_capacity(alloc, xs.items().len())?;
    for (i, x) in xs.items().iter().enumerate() {
        made.push(progress.between(*x, ys.items()[i]))?;
    }
    Ok(made)
}

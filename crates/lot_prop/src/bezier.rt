//! Paths over time.
ghost use Rattle.std.specs.Prelude.{◌≡◌, Some, IfOk, length};
ghost use Rattle.lot_prop.specs.Slots.{bezier_value};
ghost use Rattle.lot_types.specs.Slots.{HasBezier};
ghost use Rattle.lot_prop.specs.Value.{bezier_between, points_between as points_in, track_value};

use crate::found::Found;
use crate::part::Part;
use lot_types::{Bezier, Doc, Duplicate, Memory, Point, Prop, Seq, SlotValue, Time, Track};
use std::alloc::Global;

/// The value of a path property of a document at a time, in millionths, limited to the range. Want of memory is the one
/// refusal.
///
/// A slot that the property names has to be there and to be a path. Two paths of different numbers of vertices are not
/// joined: the first is held.
#[tactic(auto, unfolding(crate::specs::Slots::bezier_value, lot_types::specs::Slots::HasValue))]
pub fn value_bezier(alloc: Global, d: &Doc, p: &Prop<Bezier>, t: Time) -> Result<Bezier, Memory>
    requires { HasBezier d.now p.now }
    ensures { IfOk result (λ x. bezier_value d.now p.now t ≡ Some x) }
{
    match p {
        Prop::Own(track) => bezier_at(alloc, track, t),
        Prop::Slot(slot) => match &d.slots.items()[*slot as usize].value {
            SlotValue::Bezier(track) => bezier_at(alloc, track, t),
            _ => unreachable!(),
        },
    }
}

fn bezier_at(alloc: Global, track: &Track<Bezier>, t: Time) -> Result<Bezier, Memory>
    ensures { IfOk result (λ x. track_value bezier_between t track.now ≡ Some x) }
{
    match track {
        Track::Still(b) => b.copy(),
        Track::Moving(keys) => {
            let items = keys.items();
            match Found::of(keys, t) {
                Found::Held(k) => items[k].value.copy(),
                Found::Between(k) => {
                    let (key, next) = (&items[k], &items[k + 1]);
                    between(alloc, &Part::at(key, next, t), &key.value, &next.value)
                }
            }
        }
    }
}

/// The path between two, or the first where their numbers of vertices differ.
fn between(alloc: Global, part: &Part, a: &Bezier, b: &Bezier) -> Result<Bezier, Memory>
    ensures { IfOk result (λ x. x ≡ bezier_between part.now a.now b.now) }
{
    if a.v.items().len() != b.v.items().len() {
        return a.copy();
    }
    let v = points_between(alloc, part, &a.v, &b.v)?;
    let i = points_between(alloc, part, &a.i, &b.i)?;
    let o = points_between(alloc, part, &a.o, &b.o)?;
    Ok(Bezier {
        closed: a.closed,
        v,
        i,
        o,
    })
}

fn points_between(
    alloc: Global,
    part: &Part,
    ps: &Seq<Point>,
    qs: &Seq<Point>,
) -> Result<Seq<Point>, Memory>
    requires { length qs.now ≡ length ps.now }
    ensures value { IfOk result (λ made. made ≡ points_in part.now ps.now qs.now) }
    ensures length { IfOk result (λ made. length made ≡ length ps.now) }
{
    let progress = part.progress(0);
    let mut made = Seq::with_capacity(alloc, ps.items().len())?;
    for (i, p) in ps.items().iter().enumerate() {
        let q = &qs.items()[i];
        made.push(Point {
            x: progress.between(p.x, q.x),
            y: progress.between(p.y, q.y),
        })?;
    }
    Ok(made)
}

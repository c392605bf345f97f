//! The ink of gradients.
ghost use Rattle.std.specs.Prelude.{◌≡◌, ◌≤◌, ◌^◌, ◌-ℤ◌, Some, pos, unsigned_abs, IfOk};
ghost use Rattle.lot_geom.specs.Chords.{square_of as square_in};
ghost use Rattle.lot_num.specs.Round.{limit};
ghost use Rattle.lot_paint.specs.Gradient.{HasGradientValues, gradient_ink as gradient_ink_in, radial as radial_in, radius_vector as radius_vector_in, vector_length as vector_length_in, highlight_fraction as highlight_in, focus_coordinate as coordinate_in, focus_of as focus_in};

use crate::merged::merged_stops;
use lot_geom::{apply, limited, rotation};
use lot_num::{isqrt, rnd_div};
use lot_prop::{value_gradient, value_scalar, value_vector};
use lot_types::{Doc, Fx, Ink, Memory, Point, Prop, Seq, Stop, Stops, Time};
use std::alloc::Global;

/// The ink of a gradient at a time: `kind` 1 linear, 2 radial. A number that is none of them counts as 2. Want of
/// memory is the one refusal.
///
/// The slots that its properties name have to be there and to have their kinds.
#[tactic(auto, unfolding(crate::specs::Gradient::gradient_ink))]
pub(crate) fn gradient_ink(
    alloc: Global,
    d: &Doc,
    t: Time,
    s: &Prop<Point>,
    e: &Prop<Point>,
    kind: u8,
    stops: &Stops,
    h: &Prop<Fx>,
    a: &Prop<Fx>,
) -> Result<Ink, Memory>
    requires { HasGradientValues d.now s.now e.now stops.now h.now a.now }
    ensures { IfOk result (λ ink. gradient_ink_in d.now t s.now e.now kind stops.now h.now a.now
        ≡ Some ink) }
{
    let from = value_vector(d, s, t);
    let to = value_vector(d, e, t);
    let gradient = value_gradient(alloc, d, &stops.k, t)?;
    let stops = merged_stops(alloc, &gradient)?;
    if kind == 1 {
        return Ok(Ink::Linear { from, to, stops });
    }
    Ok(radial(
        &from,
        &to,
        value_scalar(d, h, t),
        value_scalar(d, a, t),
        stops,
    ))
}

/// The ink of a radial gradient about the center `s`, with `e` on its circle. The focus is at `h` per cent of the
/// radius, in the direction of `e` turned by the angle `a`.
#[tactic(auto, unfolding(crate::specs::Gradient::radial))]
fn radial(s: &Point, e: &Point, h: Fx, a: Fx, stops: Seq<Stop>) -> Ink
    ensures { result ≡ radial_in s.now e.now h a stops }
{
    let radius = radius_vector(s, e);
    Ink::Radial {
        center: *s,
        radius: vector_length(&radius),
        focus: focus_of(s, &radius, h, a),
        stops,
    }
}

/// The vector from the center to the point that gives the radius, limited to the range.
#[tactic(auto, unfolding(crate::specs::Gradient::radius_vector))]
fn radius_vector(s: &Point, e: &Point) -> Point
    ensures { result ≡ radius_vector_in s.now e.now }
{
    Point {
        x: difference(s.x, e.x),
        y: difference(s.y, e.y),
    }
}

/// The difference from `x` to `y`, limited to the range.
fn difference(x: Fx, y: Fx) -> Fx
    ensures { result ≡ limit (y -ℤ x) }
{
    limited((y.get() - x.get()) as i128)
}

/// The length of a vector, rounded down.
#[tactic(auto, unfolding(crate::specs::Gradient::vector_length))]
fn vector_length(d: &Point) -> Fx
    ensures { result ≡ vector_length_in d.now }
{
    limited(isqrt(square_of(d.x) + square_of(d.y)) as i128)
}

fn square_of(x: Fx) -> u128
    ensures value { result ≡ square_in x }
    ensures small { result ≤ 10 ^ 26 }
{
    let size = x.get().unsigned_abs() as u128;
    size * size
}

/// The focus about the center `s`, on the radius vector `d` turned by the angle `a`.
#[tactic(auto, unfolding(crate::specs::Gradient::focus_of))]
fn focus_of(s: &Point, d: &Point, h: Fx, a: Fx) -> Point
    ensures { result ≡ focus_in s.now d.now h a }
{
    let turned = apply(rotation(a), *d);
    Point {
        x: focus_coordinate(s.x, h, turned.x),
        y: focus_coordinate(s.y, h, turned.y),
    }
}

fn focus_coordinate(center: Fx, h: Fx, by: Fx) -> Fx
    ensures { result ≡ coordinate_in center h by }
{
    let shift = rnd_div(highlight_fraction(h) * by.get() as i128, 1_000_000);
    limited(center.get() as i128 + shift)
}

/// The distance of the focus from the center, as a fraction of the radius. A highlight is limited to 99 per cent either
/// way.
fn highlight_fraction(h: Fx) -> i128
    ensures value { result ≡ highlight_in h }
    ensures small { unsigned_abs result ≤ 10 ^ 8 }
{
    rnd_div(h.get().clamp(-99_000_000, 99_000_000) as i128, 100)
}

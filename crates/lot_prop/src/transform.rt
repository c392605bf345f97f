//! Transforms over time.
ghost use Rattle.std.specs.Prelude.{◌≡◌, Some};
ghost use Rattle.lot_prop.specs.Transform.{own_matrix, opacity_fraction as opacity_fraction_in, opacity_value};
ghost use Rattle.lot_types.specs.Slots.{HasScalar, HasValues};

use crate::position::value_position;
use crate::scalar::value_scalar;
use crate::vector::value_vector;
use lot_geom::{limited, of_transform_values};
use lot_num::rnd_div;
use lot_types::{Doc, Fx, Matrix, Prop, Time, Transform};

/// The map of a transform of a document at a time: see [`of_transform_values`] for the order and the orientation of its
/// parts. The opacity is no part of it.
///
/// The slots that its properties name have to be there and to have their kinds. It takes no memory.
#[tactic(auto, unfolding(crate::specs::Transform::own_matrix))]
pub fn matrix_at(d: &Doc, x: &Transform, t: Time) -> Matrix
    requires { HasValues d.now x.now }
    ensures { own_matrix d.now x.now t ≡ Some result }
{
    let a = value_vector(d, &x.a, t);
    let p = value_position(d, &x.p, t);
    let s = value_vector(d, &x.s, t);
    let r = value_scalar(d, &x.r, t);
    let sk = value_scalar(d, &x.sk, t);
    let sa = value_scalar(d, &x.sa, t);
    of_transform_values(a, p, s, r, sk, sa)
}

/// An opacity of a document at a time as a fraction in millionths, from 0 to 1. The property is in per cent, and is
/// limited to 0 to 100.
///
/// A slot that the property names has to be there and to be a scalar. It takes no memory.
#[tactic(auto, unfolding(crate::specs::Transform::opacity_value))]
pub fn opacity_at(d: &Doc, p: &Prop<Fx>, t: Time) -> Fx
    requires { HasScalar d.now p.now }
    ensures { opacity_value d.now p.now t ≡ Some result }
{
    opacity_fraction(value_scalar(d, p, t))
}

/// 100 per cent, in millionths.
const WHOLE_PERCENT: i64 = 100_000_000;

/// The fraction of an opacity in per cent.
fn opacity_fraction(o: Fx) -> Fx
    ensures { result ≡ opacity_fraction_in o }
{
    if o.get() < 0 {
        return Fx::ZERO;
    }
    if WHOLE_PERCENT < o.get() {
        return Fx::ONE;
    }
    limited(rnd_div(o.get() as i128, 100))
}

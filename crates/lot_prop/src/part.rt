//! A part of the time between two keyframes, and numbers that change with it.
ghost use Rattle.std.specs.Prelude.{◌≡◌, ℤ, ◌<◌, ◌≤◌, ◌^◌, ◌≤ℤ◌, ◌<ℤ◌, unsigned_abs};
ghost use Rattle.lot_num.specs.Easing.{IsPart, between, height};
ghost use Rattle.lot_prop.specs.LeastStep.{least_step};
ghost use Rattle.lot_prop.specs.Eased.{part_at, eased as eased_in, component};
ghost use Rattle.lot_prop.specs.Spatial.{is_spatial as is_spatial_in, is_zero as is_zero_in, on_curve as on_curve_in};

use crate::progress::Progress;
use lot_geom::{Cubic, along, moved};
use lot_num::{Handle, ease};
use lot_types::{Ease3, Fx, Key, Point, Time};
use std::marker::Model;

/// One, in millionths.
const ONE: i64 = 1_000_000;

/// The part of the time from a keyframe to the next that has passed, `num` of `den`, in millionths of a frame, with the
/// handles of the easing, and with the tangents of the keyframe in millionths of a pixel.
#[derive(Clone, Copy)]
pub struct Part {
    num: i64,
    den: i64,
    ease: Option<(Ease3, Ease3)>,
    to: Point,
    ti: Point,
}

impl Model for Part {
    ghost use Rattle.lot_num.specs.Easing.{IsPart};
    ghost use Rattle.lot_prop.specs.Eased as specs;

    ghost Value = { specs.Part };

    ghost view = { λ p. record { num = p.num; den = p.den; ease = p.ease; to = p.to; ti = p.ti } };

    ghost invariant = { λ p. IsPart p.num p.den };

    ghost inverse = { λ p. record { num = p.num; den = p.den; ease = p.ease; to = p.to; ti = p.ti } };
}

impl Part {
    /// The part at a time from that of `key`, included, to that of `next`, excluded.
    pub fn at<T>(key: &Key<T>, next: &Key<T>, t: Time) -> Part
        requires from { key.now.t ≤ℤ t }
        requires to { t <ℤ next.now.t }
        ensures { result ≡ part_at key.now next.now t }
    {
        let start = key.t.get();
        Part {
            num: t.get() - start,
            den: next.t.get() - start,
            ease: key.ease,
            to: key.to,
            ti: key.ti,
        }
    }

    /// How far the component `c` of a value has come; `c` is from 0 to 2.
    pub fn progress(&self, c: usize) -> Progress
        requires { c < 3 }
        ensures { (s0 s1 : ℤ) → between s0 s1 result.num result.den ≡ eased_in c self.now s0 s1 }
    {
        match &self.ease {
            None => Progress {
                num: self.num,
                den: self.den,
            },
            Some((o, i)) => Progress {
                num: fraction_made(handle(o, c), handle(i, c), self.num, self.den),
                den: ONE,
            },
        }
    }

    /// A number that goes from `s0` to `s1`, as the component `c` of a value, from 0 to 2. The result is limited to
    /// the range.
    pub fn eased(&self, c: usize, s0: Fx, s1: Fx) -> Fx
        requires { c < 3 }
        ensures { result ≡ eased_in c self.now s0 s1 }
    {
        self.progress(c).between(s0, s1)
    }

    /// Whether the keyframe has a tangent that is not 0.
    pub fn is_spatial(&self) -> bool
        ensures { result ≡ is_spatial_in self.now }
    {
        !(is_zero(self.to) && is_zero(self.ti))
    }

    /// The point between the values of the keyframe, `p`, and of the next, `q`, on the curve with its tangents.
    pub fn on_curve(&self, p: &Point, q: &Point) -> Point
        ensures { result ≡ on_curve_in self.now p.now q.now }
    {
        let curve = Cubic {
            p0: *p,
            p1: moved(*p, self.to),
            p2: moved(*q, self.ti),
            p3: *q,
        };
        along(&curve, self.eased(0, Fx::ZERO, Fx::ONE).get())
    }
}

fn is_zero(p: Point) -> bool
    ensures { result ≡ is_zero_in p }
{
    p.x.get() == 0 && p.y.get() == 0
}

/// The fraction of a change that is made at the part `num / den` of the time, by two handles.
fn fraction_made(o: Handle, i: Handle, num: i64, den: i64) -> i64
    requires part { IsPart num den }
    ensures value { result ≡ height o.y i.y (least_step o.x i.x num den) }
    ensures small { unsigned_abs result ≤ 10 ^ 8 }
{
    ease(o, i, num, den).fraction
}

/// The handle of a component.
fn handle(handles: &Ease3, c: usize) -> Handle
    requires { c < 3 }
    ensures x { result.x ≡ component c handles.now.x }
    ensures y { result.y ≡ component c handles.now.y }
{
    Handle {
        x: handles.x[c],
        y: handles.y[c],
    }
}

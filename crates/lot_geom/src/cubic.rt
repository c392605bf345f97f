//! Cubic Bezier curves.

ghost use Rattle.std.specs.Prelude.{◌≡◌, ◌*◌, ◌^◌, ◌<◌, ◌≤◌, ◌*ℤ◌, pos, unsigned_abs};
ghost use Rattle.lot_geom.specs.Cubic.{blossom as blossom_in, weighted_mean, AreSmall, curve_point, part_of, weight0, weight1, weight2, weight3, IsNumberOfParts};
ghost use Rattle.lot_num.specs.Easing.{cube, grid_steps};

use crate::number::limited;
use lot_num::rnd_div;
use lot_types::{Fx, Point};

/// A cubic curve from `p0` to `p3` with the control points `p1` and `p2`, in millionths of a pixel.
#[derive(Clone, Copy)]
pub struct Cubic {
    pub p0: Point,
    pub p1: Point,
    pub p2: Point,
    pub p3: Point,
}

/// The number of parts in which [`split`] counts.
pub(crate) const GRID_STEPS: u32 = 65_536;

/// The point of a curve at the parameter `k`, counted in `parts`, rounded.
///
/// `k` is at most `parts`, and `parts` is 64, 128 or 65,536.
pub fn point_at(c: &Cubic, k: u32, parts: u32) -> Point
    requires within { k ≤ parts }
    requires parts { IsNumberOfParts parts }
    ensures { result ≡ curve_point c.now k parts }
{
    blossom(c, parts, k, k, k)
}

/// The part of a curve from the parameter `g1` to `g2`, counted in 65,536 parts: its control points, rounded.
///
/// `g1` is at most `g2`, and `g2` at most 65,536.
pub fn split(c: &Cubic, g1: u32, g2: u32) -> Cubic
    requires ordered { g1 ≤ g2 }
    requires within { g2 ≤ grid_steps }
    ensures { result ≡ part_of c.now g1 g2 }
{
    Cubic {
        p0: blossom(c, GRID_STEPS, g1, g1, g1),
        p1: blossom(c, GRID_STEPS, g1, g1, g2),
        p2: blossom(c, GRID_STEPS, g1, g2, g2),
        p3: blossom(c, GRID_STEPS, g2, g2, g2),
    }
}

/// The blossom of a curve at three parameters, counted in `n` parts.
fn blossom(c: &Cubic, n: u32, u: u32, v: u32, w: u32) -> Point
    requires some { 0 < n }
    requires few { n ≤ grid_steps }
    requires first { u ≤ n }
    requires second { v ≤ n }
    requires third { w ≤ n }
    ensures { result ≡ blossom_in c.now n u v w }
{
    let weights = Weights::of(n, u, v, w);
    Point {
        x: weights.mean(c.p0.x, c.p1.x, c.p2.x, c.p3.x),
        y: weights.mean(c.p0.y, c.p1.y, c.p2.y, c.p3.y),
    }
}

/// The weights of the four control points, and their sum.
#[derive(Clone, Copy)]
struct Weights {
    w0: u64,
    w1: u64,
    w2: u64,
    w3: u64,
    sum: u64,
}

impl Weights {
    /// The weights at three parameters, counted in `n` parts.
    fn of(n: u32, u: u32, v: u32, w: u32) -> Weights
        requires some { 0 < n }
        requires few { n ≤ grid_steps }
        requires first { u ≤ n }
        requires second { v ≤ n }
        requires third { w ≤ n }
        ensures w0 { result.w0 ≡ weight0 n u v w }
        ensures w1 { result.w1 ≡ weight1 n u v w }
        ensures w2 { result.w2 ≡ weight2 n u v w }
        ensures w3 { result.w3 ≡ weight3 u v w }
        ensures sum { result.sum ≡ cube n }
        ensures fit { AreSmall result.w0 result.w1 result.w2 result.w3 result.sum }
    {
        let (s, u) = ((n - u) as u64, u as u64);
        let (t, v) = ((n - v) as u64, v as u64);
        let (r, w) = ((n - w) as u64, w as u64);
        let n = n as u64;
        Weights {
            w0: s * t * r,
            w1: u * t * r + s * v * r + s * t * w,
            w2: u * v * r + u * t * w + s * v * w,
            w3: u * v * w,
            sum: n * n * n,
        }
    }

    /// The mean of four coordinates by these weights, rounded.
    fn mean(&self, x0: Fx, x1: Fx, x2: Fx, x3: Fx) -> Fx
        requires { AreSmall self.now.w0 self.now.w1 self.now.w2 self.now.w3 self.now.sum }
        ensures { result ≡ weighted_mean self.now.w0 self.now.w1 self.now.w2 self.now.w3
            self.now.sum x0 x1 x2 x3 }
    {
        let sum = times(x0, self.w0) + times(x1, self.w1) + times(x2, self.w2) + times(x3, self.w3);
        limited(rnd_div(sum, self.sum as i128))
    }
}

/// A coordinate with a weight.
fn times(x: Fx, weight: u64) -> i128
    requires { weight ≤ 2 ^ 50 }
    ensures value { result ≡ x *ℤ pos weight }
    ensures small { unsigned_abs result ≤ 10 ^ 13 * 2 ^ 50 }
{
    x.get() as i128 * weight as i128
}

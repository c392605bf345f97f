//! Affine maps of the plane, whose y axis points down, so that a positive angle turns clockwise.
//!
//! A map has the coefficients of SVG's `matrix(a b c d e f)`, in millionths: see [`Matrix`]. Products are taken from
//! the left: `then(m, next)` maps by `m` first. Each coefficient and each coordinate is rounded, and limited to the
//! range once.

ghost use Rattle.std.specs.Prelude.{◌≡◌, ◌*◌, ◌^◌, ◌≤◌, ◌+ℤ◌, pos, unsigned_abs};
ghost use Rattle.lot_geom.specs.Matrix.{matrix_product, mapped, identity as identity_in, translation as translation_in, scaling as scaling_in, rotation as rotation_in, shear as shear_in, skewed as skewed_in, is_translation as is_translation_in, transform_matrix, sum_of_products as sum_of_products_in};
ghost use Rattle.lot_num.specs.Round.{limit, rnd};

use crate::number::{exact_product, limited, negated};
use crate::offset::{moved, opposite};
use lot_num::{cos_fx, rnd_div, sin_fx, tan_fx};
use lot_types::{Fx, Matrix, Point};

/// The map of every point to itself.
pub fn identity() -> Matrix
    ensures { result ≡ identity_in }
{
    Matrix::IDENTITY
}

/// The product of two maps: the map `m`, and then the map `next`. Its coefficients are limited to the range.
#[tactic(auto, unfolding(crate::specs::Matrix::matrix_product))]
pub fn then(m: Matrix, next: Matrix) -> Matrix
    ensures { result ≡ matrix_product m next }
{
    Matrix {
        a: coefficient(m.a, next.a, m.b, next.c),
        b: coefficient(m.a, next.b, m.b, next.d),
        c: coefficient(m.c, next.a, m.d, next.c),
        d: coefficient(m.c, next.b, m.d, next.d),
        e: coordinate(m.e, next.a, m.f, next.c, next.e),
        f: coordinate(m.e, next.b, m.f, next.d, next.f),
    }
}

/// The point to which a map takes `p`, in millionths of a pixel, limited to the range.
#[tactic(auto, unfolding(crate::specs::Matrix::mapped))]
pub fn apply(m: Matrix, p: Point) -> Point
    ensures { result ≡ mapped m p }
{
    // Most maps of shapes are translations, which need no division.
    if is_translation(&m) {
        return moved(p, Point { x: m.e, y: m.f });
    }
    Point {
        x: coordinate(p.x, m.a, p.y, m.c, m.e),
        y: coordinate(p.x, m.b, p.y, m.d, m.f),
    }
}

/// The map of a transform with these values: by minus the anchor point `a`, then the scale `s`, the skew, the rotation
/// `r`, and the translation to the position `p`.
///
/// Points are in millionths of a pixel, the scale in millionths of a per cent, and angles in millionths of a degree. A
/// positive `r` turns clockwise. The skew by the angle `sk` moves points along the axis of the angle `sa`; an angle
/// `sk` of 0 leaves them where they are. The coefficients of each product are limited to the range.
#[tactic(auto, unfolding(crate::specs::Matrix::transform_matrix))]
pub fn of_transform_values(a: Point, p: Point, s: Point, r: Fx, sk: Fx, sa: Fx) -> Matrix
    ensures { result ≡ transform_matrix a p s r sk sa }
{
    let scaled = then(translation(opposite(a)), scaling(s));
    let turned = rotated(skewed(scaled, sk, sa), r);
    then(turned, translation(p))
}

/// Whether a map moves each point by an offset.
fn is_translation(m: &Matrix) -> bool
    ensures { result ≡ is_translation_in m.now }
{
    m.a == Fx::ONE && m.b == Fx::ZERO && m.c == Fx::ZERO && m.d == Fx::ONE
}

/// The sum of two products, limited to the range.
fn coefficient(x: Fx, y: Fx, u: Fx, v: Fx) -> Fx
    ensures { result ≡ limit (sum_of_products_in x y u v) }
{
    limited(sum_of_products(x, y, u, v))
}

/// The sum of two products and a translation, limited to the range.
fn coordinate(x: Fx, y: Fx, u: Fx, v: Fx, by: Fx) -> Fx
    ensures { result ≡ limit (sum_of_products_in x y u v +ℤ by) }
{
    limited(sum_of_products(x, y, u, v) + by.get() as i128)
}

/// The sum of two products, in millionths, rounded.
fn sum_of_products(x: Fx, y: Fx, u: Fx, v: Fx) -> i128
    ensures value { result ≡ sum_of_products_in x y u v }
    ensures small { unsigned_abs result ≤ 2 * 10 ^ 26 }
{
    rnd_div(exact_product(x, y) + exact_product(u, v), 1_000_000)
}

/// The map that moves each point by an offset.
fn translation(by: Point) -> Matrix
    ensures { result ≡ translation_in by }
{
    Matrix {
        e: by.x,
        f: by.y,
        ..Matrix::IDENTITY
    }
}

/// The map that scales by per cents.
fn scaling(s: Point) -> Matrix
    ensures { result ≡ scaling_in s }
{
    Matrix {
        a: hundredth(s.x),
        d: hundredth(s.y),
        ..Matrix::IDENTITY
    }
}

/// A hundredth, rounded.
fn hundredth(x: Fx) -> Fx
    ensures { result ≡ rnd x (pos 100) }
{
    limited(rnd_div(x.get() as i128, 100))
}

/// The map that turns about the origin by an angle, in millionths of a degree, clockwise where that is positive.
pub fn rotation(r: Fx) -> Matrix
    ensures { result ≡ rotation_in r }
{
    let sine = limited(sin_fx(r.get()) as i128);
    let cosine = limited(cos_fx(r.get()) as i128);
    Matrix {
        a: cosine,
        b: sine,
        c: negated(sine),
        d: cosine,
        ..Matrix::IDENTITY
    }
}

/// The map that moves points along the x axis, by their distance below it times the tangent of an angle, to the left
/// where that is positive.
fn shear(sk: Fx) -> Matrix
    ensures { result ≡ shear_in sk }
{
    let tangent = limited(tan_fx(sk.get()) as i128);
    Matrix {
        c: negated(tangent),
        ..Matrix::IDENTITY
    }
}

/// The map `m`, and then a skew.
fn skewed(m: Matrix, sk: Fx, sa: Fx) -> Matrix
    ensures { result ≡ skewed_in m sk sa }
{
    if sk.get() == 0 {
        return m;
    }
    let along_axis = then(then(m, rotation(sa)), shear(sk));
    then(along_axis, rotation(negated(sa)))
}

/// The map `m`, and then a rotation. That by 0 is the identity, and takes no sine.
fn rotated(m: Matrix, r: Fx) -> Matrix
    ensures { result ≡ matrix_product m (rotation_in r) }
{
    if r.get() == 0 {
        return m;
    }
    then(m, rotation(r))
}

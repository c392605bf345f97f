//! Affine maps.

use crate::Fx;

/// An affine map of the plane, with the coefficients of SVG's `matrix(a b c d e f)` in millionths:
///
/// ```text
/// | a c e |   | x |
/// | b d f | * | y |
/// | 0 0 1 |   | 1 |
/// ```
///
/// So (x, y) becomes (a x + c y + e, b x + d y + f). In this space, whose y axis points down, the matrix with `a` and
/// `d` cos r, `b` sin r and `c` -sin r turns clockwise by r.
#[derive(Clone, Copy, PartialEq, Eq)]
pub struct Matrix {
    pub a: Fx,
    pub b: Fx,
    pub c: Fx,
    pub d: Fx,
    pub e: Fx,
    pub f: Fx,
}

impl Matrix {
    /// The map of every point to itself.
    pub const IDENTITY: Matrix = Matrix {
        a: Fx::ONE,
        b: Fx::ZERO,
        c: Fx::ZERO,
        d: Fx::ONE,
        e: Fx::ZERO,
        f: Fx::ZERO,
    };
}

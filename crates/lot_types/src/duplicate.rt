//! Copies.

ghost use Rattle.std.specs.Prelude.{◌≡◌, IfOk};

use crate::{Color, Fx, Matrix, Memory, Point, Rgb, Time};

/// A value that is copied where there is memory for the copy. A list copies its items by it.
///
/// A type that contains itself copies itself by a private function, since its list cannot call it through this trait.
pub trait Duplicate: Drop {
    /// An equal value, which shares no memory with this one and has the same allocator. Want of memory is the one
    /// refusal.
    fn copy(&self) -> Result<Self, Memory>
        ensures { IfOk result (λ made. made ≡ self.now) };
}

impl Duplicate for u32 {
    fn copy(&self) -> Result<u32, Memory> {
        Ok(*self)
    }
}

impl Duplicate for Fx {
    fn copy(&self) -> Result<Fx, Memory> {
        Ok(*self)
    }
}

impl Duplicate for Time {
    fn copy(&self) -> Result<Time, Memory> {
        Ok(*self)
    }
}

impl Duplicate for Point {
    fn copy(&self) -> Result<Point, Memory> {
        Ok(*self)
    }
}

impl Duplicate for Rgb {
    fn copy(&self) -> Result<Rgb, Memory> {
        Ok(*self)
    }
}

impl Duplicate for Matrix {
    fn copy(&self) -> Result<Matrix, Memory> {
        Ok(*self)
    }
}

impl Duplicate for Color {
    fn copy(&self) -> Result<Color, Memory> {
        Ok(*self)
    }
}

impl<T: Duplicate> Duplicate for Option<T> {
    fn copy(&self) -> Result<Option<T>, Memory> {
        match self {
            Some(value) => Ok(Some(value.copy()?)),
            None => Ok(None),
        }
    }
}

// Copies of several values, for what has many of them.

pub(crate) fn copy_two<A: Duplicate, B: Duplicate>(a: &A, b: &B) -> Result<(A, B), Memory>
    ensures { IfOk result (λ made. made ≡ (a.now, b.now)) }
{
    Ok((a.copy()?, b.copy()?))
}

pub(crate) fn copy_three<A: Duplicate, B: Duplicate, C: Duplicate>(
    a: &A,
    b: &B,
    c: &C,
) -> Result<(A, B, C), Memory>
    ensures { IfOk result (λ made. made ≡ (a.now, b.now, c.now)) }
{
    Ok((a.copy()?, b.copy()?, c.copy()?))
}

pub(crate) fn copy_four<A: Duplicate, B: Duplicate, C: Duplicate, D: Duplicate>(
    a: &A,
    b: &B,
    c: &C,
    d: &D,
) -> Result<(A, B, C, D), Memory>
    ensures { IfOk result (λ made. made ≡ (a.now, b.now, c.now, d.now)) }
{
    Ok((a.copy()?, b.copy()?, c.copy()?, d.copy()?))
}

//! Paths.

use crate::{Duplicate, Memory, Point, Seq};
use std::marker::Model;

/// A path of cubic curves through vertices, after the Lottie Specification 1.0, "Bezier Shape". The three lists have
/// one length, of at most [`MAX_LIST_ITEMS`]. Lengths are in millionths of a pixel.
#[derive(Drop)]
pub struct Bezier {
    /// A last curve leads from the last vertex back to the first.
    pub closed: bool,
    /// The vertices.
    pub v: Seq<Point>,
    /// The tangent that enters each vertex: the offset from it to the second control point of the curve before it.
    pub i: Seq<Point>,
    /// The tangent that leaves each vertex: the offset from it to the first control point of the curve after it.
    pub o: Seq<Point>,
}

impl Model for Bezier {
    ghost use Rattle.lot_types.specs.Curve.{Curve, AreVertices};

    ghost Value = { Curve };

    ghost view = { λ b. record { closed = b.closed; v = b.v; i = b.i; o = b.o } };

    ghost invariant = { λ b. AreVertices b.v b.i b.o };
}

impl Duplicate for Bezier {
    fn copy(&self) -> Result<Bezier, Memory> {
        let v = self.v.copy()?;
        let i = self.i.copy()?;
        let o = self.o.copy()?;
        Ok(Bezier {
            closed: self.closed,
            v,
            i,
            o,
        })
    }
}

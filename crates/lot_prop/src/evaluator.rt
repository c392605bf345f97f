//! The values of properties, for what reads shapes.
ghost use Rattle.lot_prop.specs.Slots.{evaluated};

use crate::bezier::value_bezier;
use crate::scalar::value_scalar;
use crate::vector::value_vector;
use lot_types::{Bezier, Doc, Fx, Memory, Point, Prop, Time, Values};
use std::alloc::Global;

/// Answers the value of a property as this crate evaluates it.
#[derive(Clone, Copy)]
pub struct Evaluator;

impl Values for Evaluator {
    ghost property_values = { λ _. evaluated };

    fn scalar(&self, d: &Doc, p: &Prop<Fx>, t: Time) -> Fx {
        value_scalar(d, p, t)
    }

    fn vector(&self, d: &Doc, p: &Prop<Point>, t: Time) -> Point {
        value_vector(d, p, t)
    }

    fn bezier(&self, alloc: Global, d: &Doc, p: &Prop<Bezier>, t: Time) -> Result<Bezier, Memory> {
        value_bezier(alloc, d, p, t)
    }
}

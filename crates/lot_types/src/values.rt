//! Values of properties, as what reads shapes sees them.
ghost use Rattle.std.specs.Prelude.{◌≡◌, Some, IfOk};
ghost use Rattle.lot_types.specs.Slots.{HasScalar, HasVector, HasBezier};
ghost use Rattle.lot_types.specs.PropertyValues.{PropertyValues};

use crate::{Bezier, Doc, Fx, Memory, Point, Prop, Time};
use std::alloc::Global;

/// What answers the value of a property of a document at a time, limited to the range of its type. A slot that the
/// property names has to be there and to have its kind.
///
/// A crate that reads values by this trait need not stand on the crate that evaluates properties.
pub trait Values {
    /// The value of each property.
    ghost property_values: { Self → PropertyValues };

    /// The value of a scalar property. It takes no memory.
    fn scalar(&self, d: &Doc, p: &Prop<Fx>, t: Time) -> Fx
        requires { HasScalar d.now p.now }
        ensures { (property_values self.now).scalar d.now p.now t ≡ Some result };

    /// The value of a vector property. It takes no memory.
    fn vector(&self, d: &Doc, p: &Prop<Point>, t: Time) -> Point
        requires { HasVector d.now p.now }
        ensures { (property_values self.now).vector d.now p.now t ≡ Some result };

    /// The value of a path property. Want of memory is the one refusal.
    fn bezier(&self, alloc: Global, d: &Doc, p: &Prop<Bezier>, t: Time) -> Result<Bezier, Memory>
        requires { HasBezier d.now p.now }
        ensures { IfOk result (λ b. (property_values self.now).bezier d.now p.now t ≡ Some b) };
}

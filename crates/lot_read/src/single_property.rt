//! The readers of a single property.
ghost use Rattle.std.specs.Prelude.{◌≡◌, ◌<◌};
ghost use Rattle.lot_types.specs.declared.slot.SlotKind.TheVariants as slot_kind;
ghost use Rattle.lot_read.specs.Bezier.{bezier};
ghost use Rattle.lot_read.specs.Color.{color};
ghost use Rattle.lot_read.specs.Gradient.{gradient};
ghost use Rattle.lot_read.specs.Number.{scalar};
ghost use Rattle.lot_read.specs.Outcome.{IsAnswer};
ghost use Rattle.lot_read.specs.Property.{property};
ghost use Rattle.lot_read.specs.SlotNames.{names_in};
ghost use Rattle.lot_read.specs.Vector.{vector};

use crate::bezier::BezierValue;
use crate::color::ColorValue;
use crate::gradient::GradientValue;
use crate::object::Object;
use crate::property::Property;
use crate::reader::Reader;
use crate::scalar::ScalarValue;
use crate::slot_names::SlotNames;
use crate::value_kind::ValueKind;
use crate::vector::VectorValue;
use lot_json::{Json, Pointer};
use lot_types::{Bezier, Color, Fx, Gradient, Point, Prop, Refusal, Seq};
use std::alloc::Global;

/// Reads a property of scalars: numbers, or lists whose first item is one.
///
/// The answer is the property, its first fault in the order of the table of members, or want of memory. `at` is the
/// place of `v` from the root, which the places of faults begin with, and is afterwards as before.
pub fn read_scalar(
    alloc: Global,
    at: &mut Pointer,
    v: &Json,
    names: &SlotNames,
) -> Result<Prop<Fx>, Refusal>
    ensures value { IsAnswer result
        (property slot_kind.Scalar (names_in names.now) scalar at.old v.now) }
    ensures at { at.new ≡ at.old }
{
    read_property(alloc, at, v, names, ScalarValue)
}

/// Reads a property of vectors, which are points in pixels, per cent or scales, as [`read_scalar`] reads one of
/// scalars.
pub fn read_vector(
    alloc: Global,
    at: &mut Pointer,
    v: &Json,
    names: &SlotNames,
) -> Result<Prop<Point>, Refusal>
    ensures value { IsAnswer result
        (property slot_kind.Vector (names_in names.now) vector at.old v.now) }
    ensures at { at.new ≡ at.old }
{
    read_property(alloc, at, v, names, VectorValue)
}

/// Reads a property of colors, whose parts are from 0 to 1, as [`read_scalar`] reads one of scalars.
pub fn read_color(
    alloc: Global,
    at: &mut Pointer,
    v: &Json,
    names: &SlotNames,
) -> Result<Prop<Color>, Refusal>
    ensures value { IsAnswer result
        (property slot_kind.Color (names_in names.now) color at.old v.now) }
    ensures at { at.new ≡ at.old }
{
    read_property(alloc, at, v, names, ColorValue)
}

/// Reads a property of paths, as [`read_scalar`] reads one of scalars.
pub fn read_bezier(
    alloc: Global,
    at: &mut Pointer,
    v: &Json,
    names: &SlotNames,
) -> Result<Prop<Bezier>, Refusal>
    ensures value { IsAnswer result
        (property slot_kind.Bezier (names_in names.now) bezier at.old v.now) }
    ensures at { at.new ≡ at.old }
{
    read_property(alloc, at, v, names, BezierValue)
}

/// Reads a property of gradients that have this number of stops, at least one, as [`read_scalar`] reads one of
/// scalars.
pub fn read_gradient(
    alloc: Global,
    at: &mut Pointer,
    v: &Json,
    names: &SlotNames,
    stops: u32,
) -> Result<Prop<Gradient>, Refusal>
    requires { 0 < stops }
    ensures value { IsAnswer result
        (property (slot_kind.Gradient stops) (names_in names.now) (gradient stops) at.old v.now) }
    ensures at { at.new ≡ at.old }
{
    read_property(alloc, at, v, names, GradientValue { stops })
}

/// Reads a property of a kind of values. The uses of slots are not reported.
fn read_property<V: ValueKind + Drop>(
    alloc: Global,
    at: &mut Pointer,
    v: &Json,
    names: &SlotNames,
    value: V,
) -> Result<Prop<V::Value>, Refusal>
    ensures value { IsAnswer result
        (property (V.kind value) (names_in names.now) (V.gives value) at.old v.now) }
    ensures at { at.new ≡ at.old }
{
    let mut uses = Seq::new(alloc);
    let reader = Object {
        rows: Property { names, value },
    };
    reader.read(at, v, &mut uses)
}

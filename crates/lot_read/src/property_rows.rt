//! Rows of tables whose members are properties.
ghost use Rattle.lot_read.specs.Members.{RowGives, SameMembers};
ghost use Rattle.lot_read.specs.PropertyRows.{needed_property as needed_property_in};
ghost use Rattle.lot_read.specs.SlotNames.{names_in};
ghost use Rattle.lot_read.specs.Transform.{scalar_or as scalar_or_in, vector_or as vector_or_in};

use crate::members::Members;
use crate::object::Object;
use crate::property::Property;
use crate::scalar::ScalarValue;
use crate::slot_names::SlotNames;
use crate::value_kind::ValueKind;
use crate::vector::VectorValue;
use lot_types::{Fx, Point, Prop, Refusal, Track};

/// Reads a property of this kind of values, which has to be there.
#[tactic(auto, unfolding(crate::specs::PropertyRows::needed_property))]
pub fn needed_property<V: ValueKind + Drop>(
    value: V,
    names: &SlotNames,
    name: &str,
    members: &mut Members,
) -> Result<Prop<V::Value>, Refusal>
    ensures gives { RowGives result members.old members.new
        (needed_property_in (V.kind value) (V.gives value) (names_in names.now) name.now) }
    ensures same { SameMembers members.old members.new }
{
    let reader = Object {
        rows: Property { names, value },
    };
    members.needed(name, &reader)
}

/// Reads a property of vectors, which has this value at all times where it is absent.
#[tactic(auto, unfolding(crate::specs::Transform::vector_or))]
pub(crate) fn vector_or(
    default: Point,
    names: &SlotNames,
    name: &str,
    members: &mut Members,
) -> Result<Prop<Point>, Refusal>
    ensures gives { RowGives result members.old members.new
        (vector_or_in default (names_in names.now) name.now) }
    ensures same { SameMembers members.old members.new }
{
    let reader = Object {
        rows: Property {
            names,
            value: VectorValue,
        },
    };
    members.optional(name, &reader, Prop::Own(Track::Still(default)))
}

/// Reads a property of scalars, which has this value at all times where it is absent.
#[tactic(auto, unfolding(crate::specs::Transform::scalar_or))]
pub fn scalar_or(
    default: Fx,
    names: &SlotNames,
    name: &str,
    members: &mut Members,
) -> Result<Prop<Fx>, Refusal>
    ensures gives { RowGives result members.old members.new
        (scalar_or_in default (names_in names.now) name.now) }
    ensures same { SameMembers members.old members.new }
{
    let reader = Object {
        rows: Property {
            names,
            value: ScalarValue,
        },
    };
    members.optional(name, &reader, Prop::Own(Track::Still(default)))
}

//! The reader of transforms.
ghost use Rattle.std.specs.Prelude.{◌≡◌};
ghost use Rattle.lot_read.specs.Members.{RowGives, SameMembers};
ghost use Rattle.lot_read.specs.Outcome.{IsAnswer};
ghost use Rattle.lot_read.specs.SlotNames.{names_in};
ghost use Rattle.lot_read.specs.Transform.{transform, transform_rows, placement_rows, scalar_rows, position_or_origin as position_or_origin_in, hundred_per_cent as hundred_per_cent_in, full_size as full_size_in};

use crate::members::{Members, Rows};
use crate::object::Object;
use crate::position::PositionOf;
use crate::property_rows::{scalar_or, vector_or};
use crate::reader::Reader;
use crate::slot_names::SlotNames;
use lot_json::{Json, Pointer};
use lot_types::{Fx, Point, Position, Prop, Refusal, Seq, Track, Transform};
use std::alloc::Global;

/// Reads a transform: an object of properties, each of which may be absent. Without any of them it is the identity, and
/// opaque.
///
/// In this order they are the anchor point `a` and the position `p` in pixels, (0, 0) where they are absent; the scale
/// `s` in per cent, (100, 100); the rotation `r` in degrees, 0; the opacity `o` in per cent, 100; and the angle `sk` of
/// the skew and the angle `sa` of its axis in degrees, 0. The faults are those of [`Property`] and of [`PositionOf`].
#[derive(Clone, Copy)]
pub struct TransformOf<'a> {
    pub names: &'a SlotNames,
}

const ORIGIN: Point = Point {
    x: Fx::ZERO,
    y: Fx::ZERO,
};

impl<'a> Rows for TransformOf<'a> {
    type Value = Transform;

    ghost rows = { λ t. transform_rows (names_in t.names.now) };

    #[tactic(auto, using(crate::proofs::Faults::first_of_prefix), unfolding(crate::specs::Transform::transform_rows))]
    fn read_rows(&self, members: &mut Members) -> Result<Transform, Refusal> {
        let place = read_placement(self.names, members)?;
        let scalars = read_scalars(self.names, members)?;
        Ok(Transform {
            a: place.a,
            p: place.p,
            s: place.s,
            r: scalars.r,
            o: scalars.o,
            sk: scalars.sk,
            sa: scalars.sa,
        })
    }
}

/// The members of a transform that place and scale.
#[derive(Drop)]
struct Placement {
    a: Prop<Point>,
    p: Position,
    s: Prop<Point>,
}

/// The members of a transform that are scalars.
#[derive(Drop)]
struct Scalars {
    r: Prop<Fx>,
    o: Prop<Fx>,
    sk: Prop<Fx>,
    sa: Prop<Fx>,
}

#[tactic(auto, using(crate::proofs::Faults::first_of_prefix), unfolding(crate::specs::Transform::placement_rows))]
fn read_placement(names: &SlotNames, members: &mut Members) -> Result<Placement, Refusal>
    ensures gives { RowGives result members.old members.new (placement_rows (names_in names.now)) }
    ensures same { SameMembers members.old members.new }
{
    let a = vector_or(ORIGIN, names, "a", members)?;
    let p = position_or_origin(names, "p", members)?;
    let s = vector_or(full_size(), names, "s", members)?;
    Ok(Placement { a, p, s })
}

#[tactic(auto, using(crate::proofs::Faults::first_of_prefix), unfolding(crate::specs::Transform::scalar_rows))]
fn read_scalars(names: &SlotNames, members: &mut Members) -> Result<Scalars, Refusal>
    ensures gives { RowGives result members.old members.new (scalar_rows (names_in names.now)) }
    ensures same { SameMembers members.old members.new }
{
    let r = scalar_or(Fx::ZERO, names, "r", members)?;
    let o = scalar_or(hundred_per_cent(), names, "o", members)?;
    let sk = scalar_or(Fx::ZERO, names, "sk", members)?;
    let sa = scalar_or(Fx::ZERO, names, "sa", members)?;
    Ok(Scalars { r, o, sk, sa })
}

/// Reads a position, which is the origin at all times where it is absent.
#[tactic(auto, unfolding(crate::specs::Transform::position_or_origin))]
fn position_or_origin(
    names: &SlotNames,
    name: &str,
    members: &mut Members,
) -> Result<Position, Refusal>
    ensures gives { RowGives result members.old members.new
        (position_or_origin_in (names_in names.now) name.now) }
    ensures same { SameMembers members.old members.new }
{
    let reader = Object {
        rows: PositionOf { names },
    };
    members.optional(
        name,
        &reader,
        Position::Whole(Prop::Own(Track::Still(ORIGIN))),
    )
}

/// Reads a transform, whose members are those of [`TransformOf`], as [`read_scalar`](crate::read_scalar) reads a
/// property. Any value but an object is [`FaultCode::Kind`](lot_types::FaultCode::Kind) at its place.
pub fn read_transform(
    alloc: Global,
    at: &mut Pointer,
    v: &Json,
    names: &SlotNames,
) -> Result<Transform, Refusal>
    ensures value { IsAnswer result (transform (names_in names.now) at.old v.now) }
    ensures at { at.new ≡ at.old }
{
    let mut uses = Seq::new(alloc);
    let reader = Object {
        rows: TransformOf { names },
    };
    reader.read(at, v, &mut uses)
}

/// 100 per cent, in millionths.
#[tactic(auto, unfolding(crate::specs::Transform::hundred_per_cent))]
pub fn hundred_per_cent() -> Fx
    ensures { result ≡ hundred_per_cent_in }
{
    match Fx::new(100_000_000) {
        Some(x) => x,
        None => unreachable!(),
    }
}

/// The scale that keeps every size.
fn full_size() -> Point
    ensures { result ≡ full_size_in }
{
    Point {
        x: hundred_per_cent(),
        y: hundred_per_cent(),
    }
}

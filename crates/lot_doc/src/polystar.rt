//! The reader of polystars.
ghost use Rattle.std.specs.Prelude.{Some};
ghost use Rattle.lot_read.specs.Members.{RowGives, SameMembers};
ghost use Rattle.lot_read.specs.SlotNames.{names_in};
ghost use Rattle.lot_doc.specs.Shape.{spokes_rows, inner_radius, radii_rows, polystar_rows};

use crate::item_head::read_head;
use lot_read::{
    Choice, Members, NumberValue, ScalarValue, SlotNames, VectorValue, needed_property, scalar_or,
};
use lot_types::{Fx, Item, Point, Prop, Refusal};

/// The kind of a polystar that is a star. The other kind, 2, is a polygon.
const STAR: u8 = 1;

const KIND: Choice = Choice { low: 1, high: 2 };

/// How many points a polystar has, its center and its rotation.
#[derive(Drop)]
pub(crate) struct Spokes {
    pt: Prop<Fx>,
    p: Prop<Point>,
    r: Prop<Fx>,
}

/// The radii of a polystar, and how round its outer and inner points are.
#[derive(Drop)]
pub(crate) struct Radii {
    or_: Prop<Fx>,
    os: Prop<Fx>,
    ir: Prop<Fx>,
    is_: Prop<Fx>,
}

/// Reads a polystar: its kind `sy`, the number `pt` of its points, its center `p`, its rotation `r`, its outer radius
/// `or` and roundness `os`, its inner ones `ir` and `is`, and its direction `d`. The rotation, both roundnesses and the
/// inner radius of a polygon are 0 where they are absent.
#[tactic(auto, using(lot_read::proofs::Faults::first_of_prefix), unfolding(crate::specs::Shape::polystar_rows))]
pub(crate) fn read_polystar(names: &SlotNames, members: &mut Members) -> Result<Item, Refusal>
    ensures gives { RowGives result members.old members.new (polystar_rows (names_in names.now)) }
    ensures same { SameMembers members.old members.new }
{
    let hidden = read_head(members)?;
    let sy = members.needed("sy", &KIND)?;
    let spokes = read_spokes(names, members)?;
    let radii = read_radii(names, sy, members)?;
    let d = members.maybe("d", &NumberValue::Any)?;
    Ok(Item::Star {
        hidden,
        sy,
        pt: spokes.pt,
        p: spokes.p,
        r: spokes.r,
        or_: radii.or_,
        os: radii.os,
        ir: radii.ir,
        is_: radii.is_,
        d,
    })
}

/// Reads the number of points of a polystar, its center and its rotation.
#[tactic(auto, using(lot_read::proofs::Faults::first_of_prefix), unfolding(crate::specs::Shape::spokes_rows))]
fn read_spokes(names: &SlotNames, members: &mut Members) -> Result<Spokes, Refusal>
    ensures gives { RowGives result members.old members.new (spokes_rows (names_in names.now)) }
    ensures same { SameMembers members.old members.new }
{
    let pt = needed_property(ScalarValue, names, "pt", members)?;
    let p = needed_property(VectorValue, names, "p", members)?;
    let r = scalar_or(Fx::ZERO, names, "r", members)?;
    Ok(Spokes { pt, p, r })
}

/// Reads the radii and roundnesses of a polystar of the kind `sy`.
#[tactic(auto, using(lot_read::proofs::Faults::first_of_prefix), unfolding(crate::specs::Shape::radii_rows))]
fn read_radii(names: &SlotNames, sy: u8, members: &mut Members) -> Result<Radii, Refusal>
    ensures gives { RowGives result members.old members.new
        (radii_rows (names_in names.now) (Some sy)) }
    ensures same { SameMembers members.old members.new }
{
    let or_ = needed_property(ScalarValue, names, "or", members)?;
    let os = scalar_or(Fx::ZERO, names, "os", members)?;
    let ir = read_inner_radius(names, sy, members)?;
    let is_ = scalar_or(Fx::ZERO, names, "is", members)?;
    Ok(Radii { or_, os, ir, is_ })
}

/// Reads the inner radius, which has to be there in a star.
fn read_inner_radius(names: &SlotNames, sy: u8, members: &mut Members) -> Result<Prop<Fx>, Refusal>
    ensures gives { RowGives result members.old members.new
        (inner_radius (names_in names.now) (Some sy)) }
    ensures same { SameMembers members.old members.new }
{
    if sy == STAR {
        return needed_property(ScalarValue, names, "ir", members);
    }
    scalar_or(Fx::ZERO, names, "ir", members)
}

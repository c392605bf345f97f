//! The contours of shapes.
ghost use Rattle.std.specs.Prelude.{◌≡◌, Some, true, option_map, IfOk};
ghost use Rattle.lot_outline.specs.Leaf.{leaf_contours, contours_of_path, alone as alone_in, rectangle_contours as rectangle_in, ellipse_contours as ellipse_in, polystar_contours as polystar_in};
ghost use Rattle.lot_outline.specs.Reversed.{directed as directed_in};
ghost use Rattle.lot_types.specs.Items.{is_leaf, HasOwnValues};
ghost use Rattle.lot_types.specs.Slots.{HasScalar, HasVector, HasBezier};

use crate::ellipse::ellipse;
use crate::polystar::{Polystar, Ring, point_count};
use crate::rectangle::rectangle;
use crate::reversed::directed;
use lot_geom::path_contours;
use lot_types::{Bezier, Contour, Doc, Fx, Item, Memory, Outline, Point, Prop, Seq, Time, Values};
use std::alloc::Global;

/// The contours of a shape of a document at a time, after the Lottie Specification 1.0, "Shapes". Coordinates are in
/// millionths of a pixel, and limited to the range.
///
/// A rectangle, an ellipse, a star and a polygon have one contour, which is closed and runs clockwise. A path has one
/// as it is given, or none where it has no vertices. Where the direction `d` of the shape is 3 its contours run the
/// other way.
///
/// The item has to be a shape, and the slots that its properties name have to be there and to have their kinds. Each
/// property is evaluated once. Want of memory is the one refusal.
#[tactic(auto, using(crate::proofs::Leaves::leaf_rules))]
pub fn contours<V: Values>(
    alloc: Global,
    values: &V,
    d: &Doc,
    leaf: &Item,
    t: Time,
) -> Result<Outline, Memory>
    requires leaf { is_leaf leaf.now ≡ true }
    requires values { HasOwnValues d.now leaf.now }
    ensures { IfOk result (λ o.
        leaf_contours (V.property_values values.now) d.now leaf.now t ≡ Some o.contours) }
{
    let contours = match leaf {
        Item::Rect {
            p,
            s,
            r,
            d: direction,
            ..
        } => rectangle_contours(alloc, values, d, p, s, r, *direction, t),
        Item::Ellipse {
            p,
            s,
            d: direction,
            ..
        } => ellipse_contours(alloc, values, d, p, s, *direction, t),
        Item::Star {
            sy,
            pt,
            p,
            r,
            or_,
            os,
            ir,
            is_,
            d: direction,
            ..
        } => polystar_contours(
            alloc, values, d, *sy, pt, p, r, or_, os, ir, is_, *direction, t,
        ),
        Item::Path {
            ks,
            d: direction,
            ..
        } => bezier_contours(alloc, values, d, ks, *direction, t),
        Item::Group { .. }
        | Item::Fill { .. }
        | Item::Stroke { .. }
        | Item::GradientFill { .. }
        | Item::GradientStroke { .. }
        | Item::Trim { .. }
        | Item::Place { .. } => unreachable!(),
    }?;
    Ok(Outline { contours })
}

/// The contour of a rectangle at a time in its direction, as a list.
#[tactic(auto, unfolding(crate::specs::Leaf::rectangle_contours))]
fn rectangle_contours<V: Values>(
    alloc: Global,
    values: &V,
    d: &Doc,
    p: &Prop<Point>,
    s: &Prop<Point>,
    r: &Prop<Fx>,
    direction: Option<Fx>,
    t: Time,
) -> Result<Seq<Contour>, Memory>
    requires center { HasVector d.now p.now }
    requires size { HasVector d.now s.now }
    requires radius { HasScalar d.now r.now }
    ensures { IfOk result (λ made. option_map (directed_in direction)
        (rectangle_in (V.property_values values.now) d.now p.now s.now r.now t) ≡ Some made) }
{
    let p = values.vector(d, p, t);
    let s = values.vector(d, s, t);
    let r = values.scalar(d, r, t);
    let made = alone(alloc, rectangle(alloc, p, s, r)?)?;
    directed(alloc, made, direction)
}

/// The contour of an ellipse at a time in its direction, as a list.
#[tactic(auto, unfolding(crate::specs::Leaf::ellipse_contours))]
fn ellipse_contours<V: Values>(
    alloc: Global,
    values: &V,
    d: &Doc,
    p: &Prop<Point>,
    s: &Prop<Point>,
    direction: Option<Fx>,
    t: Time,
) -> Result<Seq<Contour>, Memory>
    requires center { HasVector d.now p.now }
    requires size { HasVector d.now s.now }
    ensures { IfOk result (λ made. option_map (directed_in direction)
        (ellipse_in (V.property_values values.now) d.now p.now s.now t) ≡ Some made) }
{
    let p = values.vector(d, p, t);
    let s = values.vector(d, s, t);
    let made = alone(alloc, ellipse(alloc, p, s)?)?;
    directed(alloc, made, direction)
}

/// The contour of a star or a polygon at a time in its direction, as a list.
#[tactic(auto, unfolding(crate::specs::Leaf::polystar_contours))]
fn polystar_contours<V: Values>(
    alloc: Global,
    values: &V,
    d: &Doc,
    sy: u8,
    pt: &Prop<Fx>,
    p: &Prop<Point>,
    r: &Prop<Fx>,
    or_: &Prop<Fx>,
    os: &Prop<Fx>,
    ir: &Prop<Fx>,
    is_: &Prop<Fx>,
    direction: Option<Fx>,
    t: Time,
) -> Result<Seq<Contour>, Memory>
    requires points { HasScalar d.now pt.now }
    requires center { HasVector d.now p.now }
    requires rotation { HasScalar d.now r.now }
    requires outer_radius { HasScalar d.now or_.now }
    requires outer_roundness { HasScalar d.now os.now }
    requires inner_radius { HasScalar d.now ir.now }
    requires inner_roundness { HasScalar d.now is_.now }
    ensures { IfOk result (λ made. option_map (directed_in direction)
        (polystar_in (V.property_values values.now) d.now sy pt.now p.now r.now
        or_.now os.now ir.now is_.now t) ≡ Some made) }
{
    let n = point_count(values.scalar(d, pt, t));
    let center = values.vector(d, p, t);
    let rotation = values.scalar(d, r, t);
    let outer = Ring::of(values.scalar(d, or_, t), values.scalar(d, os, t), n);
    let inner = Ring::of(values.scalar(d, ir, t), values.scalar(d, is_, t), n);
    let shape = Polystar::of_kind(sy, center, rotation, n, outer, inner);
    let made = alone(alloc, shape.contour(alloc)?)?;
    directed(alloc, made, direction)
}

/// The contours of a path at a time in its direction.
fn bezier_contours<V: Values>(
    alloc: Global,
    values: &V,
    d: &Doc,
    ks: &Prop<Bezier>,
    direction: Option<Fx>,
    t: Time,
) -> Result<Seq<Contour>, Memory>
    requires { HasBezier d.now ks.now }
    ensures { IfOk result (λ made. option_map (directed_in direction)
        (contours_of_path (V.property_values values.now) d.now ks.now t) ≡ Some made) }
{
    let made = path_contours(alloc, &values.bezier(alloc, d, ks, t)?)?;
    directed(alloc, made, direction)
}

/// A list of one contour.
fn alone(alloc: Global, c: Contour) -> Result<Seq<Contour>, Memory>
    ensures { IfOk result (λ made. made ≡ alone_in c) }
{
    let mut made = Seq::with_capacity(alloc, 1)?;
    made.push(c)?;
    Ok(made)
}

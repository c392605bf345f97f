//! The paints of styles.
ghost use Rattle.std.specs.Prelude.{◌≡◌, Some, true, length, IfOk};
ghost use Rattle.lot_paint.specs.Paint.{paint_at, paint_with};
ghost use Rattle.lot_types.specs.Items.{is_style, HasOwnValues};
ghost use Rattle.lot_types.specs.Painting.{IsWithin};

use crate::brush::{fill_brush, stroke_brush};
use crate::gradient::gradient_ink;
use crate::ink::flat_ink;
use crate::mapped::painted_contours;
use crate::opacity::style_opacity;
use lot_types::{Brush, Doc, Fx, Ink, Item, Memory, Outline, Paint, Painted, Seq, Time};
use std::alloc::Global;

/// What a style of a shape layer draws at a time: the contours of the leaves that it paints, with its color or
/// gradient, its brush and its opacity within its groups. Want of memory is the one refusal.
///
/// `at` says which of `leaves` it paints, the leaves of the whole layer in order of place. The slots that the
/// properties of the style name have to be there and to have their kinds.
#[tactic(auto, using(crate::proofs::Styles::styles), unfolding(crate::specs::Paint::paint_at))]
pub fn paint_of(
    alloc: Global,
    d: &Doc,
    style: &Item,
    at: &Painted,
    leaves: &Seq<Outline>,
    t: Time,
) -> Result<Paint, Memory>
    requires style { is_style style.now ≡ true }
    requires values { HasOwnValues d.now style.now }
    requires within { IsWithin (length leaves.now) at.now }
    ensures value { IfOk result (λ p. paint_at d.now t style.now at.now leaves.now ≡ Some p) }
{
    match style {
        Item::Fill { c, o, r, .. } => {
            let opacity = style_opacity(d, o, t, at.groups.items());
            painted(
                alloc,
                flat_ink(d, c, t),
                fill_brush(*r),
                opacity,
                at,
                leaves,
            )
        }
        Item::Stroke {
            c,
            o,
            w,
            lc,
            lj,
            ml,
            d: dashes,
            ..
        } => {
            let brush = stroke_brush(alloc, d, t, w, *lc, *lj, *ml, dashes)?;
            let opacity = style_opacity(d, o, t, at.groups.items());
            painted(alloc, flat_ink(d, c, t), brush, opacity, at, leaves)
        }
        Item::GradientFill {
            o,
            s,
            e,
            t: kind,
            g,
            h,
            a,
            r,
            ..
        } => {
            let ink = gradient_ink(alloc, d, t, s, e, *kind, g, h, a)?;
            let opacity = style_opacity(d, o, t, at.groups.items());
            painted(alloc, ink, fill_brush(*r), opacity, at, leaves)
        }
        Item::GradientStroke {
            o,
            s,
            e,
            t: kind,
            g,
            h,
            a,
            w,
            lc,
            lj,
            ml,
            d: dashes,
            ..
        } => {
            let ink = gradient_ink(alloc, d, t, s, e, *kind, g, h, a)?;
            let brush = stroke_brush(alloc, d, t, w, *lc, *lj, *ml, dashes)?;
            let opacity = style_opacity(d, o, t, at.groups.items());
            painted(alloc, ink, brush, opacity, at, leaves)
        }
        Item::Group { .. }
        | Item::Rect { .. }
        | Item::Ellipse { .. }
        | Item::Star { .. }
        | Item::Path { .. }
        | Item::Trim { .. }
        | Item::Place { .. } => unreachable!(),
    }
}

/// The paint of these parts, with the contours of the leaves that it paints. Want of memory is the one refusal.
fn painted(
    alloc: Global,
    ink: Ink,
    brush: Brush,
    opacity: Fx,
    at: &Painted,
    leaves: &Seq<Outline>,
) -> Result<Paint, Memory>
    requires { IsWithin (length leaves.now) at.now }
    ensures { IfOk result (λ p. paint_with at.now leaves.now (Some ink) (Some brush) (Some opacity)
        ≡ Some p) }
{
    let contours = painted_contours(alloc, at, leaves)?;
    Ok(Paint {
        ink,
        brush,
        opacity,
        matrix: at.matrix,
        contours,
    })
}

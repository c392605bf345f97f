//! The paints of shape layers.
ghost use Rattle.std.specs.Prelude.{◌≡◌, Some, length, map, reverse, IfOk};
ghost use Rattle.std.specs.List.{All};
ghost use Rattle.lot_comp.specs.Shape.{style_paint, shape_paints as paints_in};
ghost use Rattle.lot_group.specs.Collected.{LeadsToStyle};
ghost use Rattle.lot_types.specs.Items.{AreItemsOf};
ghost use Rattle.lot_types.specs.Painting.{IsWithin};

use lot_group::{collect, item_at};
use lot_paint::paint_of;
use lot_types::{Collected, Doc, Item, Memory, Outline, Paint, Painted, Seq, Time};
use std::alloc::Global;

/// What the items of a shape layer show at a time: a paint for each style that is not hidden, from the last to the
/// first. Want of memory is the one refusal.
#[tactic(auto, unfolding(crate::specs::Shape::shape_paints))]
pub(crate) fn shape_paints(
    alloc: Global,
    d: &Doc,
    items: &Seq<Item>,
    t: Time,
) -> Result<Seq<Paint>, Memory>
    requires { AreItemsOf d.now items.now }
    ensures value { IfOk result (λ paints. paints_in d.now t items.now ≡ Some paints) }
{
    let found = collect(alloc, d, items, t)?;
    paint_styles(alloc, d, items, &found, t)
}

/// What the styles draw, from the last to the first.
fn paint_styles(
    alloc: Global,
    d: &Doc,
    items: &Seq<Item>,
    found: &Collected,
    t: Time,
) -> Result<Seq<Paint>, Memory>
    requires within { All (IsWithin (length found.now.leaves)) found.now.styles }
    requires styles { All (λ at. LeadsToStyle d.now items.now at.place) found.now.styles }
    ensures value { IfOk result (λ paints. map Some paints
        ≡ map (style_paint d.now t items.now found.now.leaves) (reverse found.now.styles)) }
{
    let styles = found.styles.items();
    let mut paints = Seq::with_capacity(alloc, styles.len())?;
    let mut i = styles.len();
    while i > 0 {
        i -= 1;
        paints.push(paint_style(alloc, d, items, &styles[i], &found.leaves, t)?)?;
    }
    Ok(paints)
}

/// What one style draws of the leaves of its layer.
fn paint_style(
    alloc: Global,
    d: &Doc,
    items: &Seq<Item>,
    at: &Painted,
    leaves: &Seq<Outline>,
    t: Time,
) -> Result<Paint, Memory>
    requires within { IsWithin (length leaves.now) at.now }
    requires style { LeadsToStyle d.now items.now at.now.place }
    ensures value { IfOk result (λ p. style_paint d.now t items.now leaves.now at.now ≡ Some p) }
{
    let style = item_at(items, at.place.items());
    paint_of(alloc, d, style, at, leaves, t)
}

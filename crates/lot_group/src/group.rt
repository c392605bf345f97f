//! The transforms of groups.
ghost use Rattle.std.specs.Prelude.{◌≡◌, Some, None, IfSome, IfNone};
ghost use Rattle.lot_group.specs.Group.{given_transform, first_transform, matrix_of_found, opacity_of_found};
ghost use Rattle.lot_types.specs.Items.{AreItemsOf};

use lot_geom::identity;
use lot_prop::{matrix_at, opacity_at};
use lot_types::{Doc, Fx, Item, Matrix, Time, Transform};

/// How a group lies in the list that it is in, at a time.
#[derive(Clone, Copy)]
pub(crate) struct Placement {
    /// The map from the space of the group to that of the list.
    pub matrix: Matrix,
    /// From 0 to 1, in millionths.
    pub opacity: Fx,
}

/// The placement of a group with these items, by the first `tr` among them that is not hidden. Without one it is the
/// identity, with the opacity 1. It takes no memory.
pub(crate) fn placement_of(d: &Doc, items: &[Item], t: Time) -> Placement
    requires { AreItemsOf d.now items.now }
    ensures matrix { matrix_of_found d.now t (first_transform items.now) ≡ Some result.matrix }
    ensures opacity { opacity_of_found d.now t (first_transform items.now) ≡ Some result.opacity }
{
    for item in items {
        if let Some(ks) = shown_transform(item) {
            return Placement {
                matrix: matrix_at(d, ks, t),
                opacity: opacity_at(d, &ks.o, t),
            };
        }
    }
    Placement {
        matrix: identity(),
        opacity: Fx::ONE,
    }
}

/// The transform of a `tr` that is not hidden. `None` for every other item.
#[tactic(auto, using(crate::proofs::Transforms::transforms))]
fn shown_transform(item: &Item) -> Option<&Transform>
    ensures some { IfSome result (λ ks. given_transform item.now ≡ Some ks.now) }
    ensures none { IfNone result (given_transform item.now ≡ None) }
{
    match item {
        Item::Place { hidden: true, .. } => None,
        Item::Place { hidden: false, ks } => Some(ks),
        Item::Group { .. }
        | Item::Rect { .. }
        | Item::Ellipse { .. }
        | Item::Star { .. }
        | Item::Path { .. }
        | Item::Fill { .. }
        | Item::Stroke { .. }
        | Item::GradientFill { .. }
        | Item::GradientStroke { .. }
        | Item::Trim { .. } => None,
    }
}

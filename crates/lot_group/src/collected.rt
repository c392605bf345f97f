//! The leaves and the styles of a shape layer at a time.
ghost use Rattle.std.specs.Prelude.{◌≡◌, Some, IfOk, length};
ghost use Rattle.std.specs.List.{All};
ghost use Rattle.lot_group.specs.Collected.{collected, LeadsToStyle};
ghost use Rattle.lot_group.specs.Live.{Entry, live, styles};
ghost use Rattle.lot_group.specs.Range.{IsRange};
ghost use Rattle.lot_group.specs.TrimOrder.{IsInnerFirst, trims_of};
ghost use Rattle.lot_types.specs.Items.{AreItemsOf};
ghost use Rattle.lot_types.specs.Painting.{IsWithin};

use crate::pass::Pass;
use lot_types::{Collected, Doc, Item, Memory, Seq, Time};
use std::alloc::Global;

/// The leaves and the styles of the items of a shape layer at a time, each in order of place: the outline of each leaf
/// in its own space, and for each style the leaves that it paints with their maps. See [`Collected`] and
/// [`lot_types::Painted`].
///
/// Each outline is as all trims leave it that act on it, also those after a style: of the groups that hold it from the
/// innermost outwards, and of one list in order of place. A hidden item counts as absent, with all that it holds.
/// Want of memory is the one refusal.
pub fn collect(alloc: Global, d: &Doc, items: &Seq<Item>, t: Time) -> Result<Collected, Memory>
    requires { AreItemsOf d.now items.now }
    ensures value { IfOk result (λ c. collected d.now t items.now ≡ Some c) }
    ensures within { IfOk result (λ c. All (IsWithin (length c.leaves)) c.styles) }
    ensures styles { IfOk result (λ c. All (λ p. LeadsToStyle d.now items.now p.place) c.styles) }
    ensures order { (q : Entry) → IsInnerFirst (trims_of items.now q) }
    ensures ranges { All (IsRange (live items.now)) (styles (live items.now)) }
{
    let mut pass = Pass::new(alloc);
    pass.visit(d, items.items(), t)?;
    Ok(pass.into_collected())
}

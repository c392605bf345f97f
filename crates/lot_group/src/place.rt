//! Places of items.
ghost use Rattle.std.specs.Prelude.{◌≡◌, Some};
ghost use Rattle.lot_group.specs.Place.{item_at as item_in, items_of as items_in, LeadsToItem};

use lot_types::{Item, Seq};

/// The item at a place: the indices that lead to it, the outermost first. It takes no memory.
///
/// There has to be one.
pub fn item_at<'a>(items: &'a Seq<Item>, place: &[u32]) -> &'a Item
    requires { LeadsToItem items.now place.now }
    ensures { item_in items.now place.now ≡ Some result.now }
{
    let last = place.len() - 1;
    let mut list = items.items();
    for k in &place[..last] {
        list = items_of(&list[*k as usize]);
    }
    &list[place[last] as usize]
}

/// The list of a group. Other items have an empty one.
#[tactic(auto, using(crate::proofs::Lists::lists))]
fn items_of(item: &Item) -> &[Item]
    ensures { result.now ≡ items_in item.now }
{
    match item {
        Item::Group { it, .. } => it.items(),
        Item::Rect { .. }
        | Item::Ellipse { .. }
        | Item::Star { .. }
        | Item::Path { .. }
        | Item::Fill { .. }
        | Item::Stroke { .. }
        | Item::GradientFill { .. }
        | Item::GradientStroke { .. }
        | Item::Trim { .. }
        | Item::Place { .. } => &[],
    }
}

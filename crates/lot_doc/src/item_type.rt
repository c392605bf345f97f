//! The types of items of shape layers.
ghost use Rattle.std.specs.Prelude.{◌≡◌};
ghost use Rattle.lot_doc.specs.ItemHead.{item_type, type_named as type_named_in};

use lot_json::{Json, Pointer};
use lot_read::{Reader, refusal_at};
use lot_types::{FaultCode, Refusal, Seq, Use};

/// The types of items that are read.
#[derive(Clone, Copy)]
pub enum ItemType {
    Group,
    Rectangle,
    Ellipse,
    Polystar,
    Path,
    Fill,
    Stroke,
    GradientFill,
    GradientStroke,
    Trim,
    Transform,
}

/// Reads the type of an item by its name. Any other text is [`FaultCode::Unsupported`], and any other value is
/// [`FaultCode::Kind`].
#[derive(Clone, Copy)]
pub struct ItemTypeValue;

impl Reader for ItemTypeValue {
    type Value = ItemType;

    ghost gives = { λ _. item_type };

    #[tactic(auto, unfolding(crate::specs::ItemHead::item_type))]
    fn read(&self, at: &mut Pointer, v: &Json, uses: &mut Seq<Use>) -> Result<ItemType, Refusal> {
        match v {
            Json::Text(t) => match type_named(t.as_str()) {
                Some(ty) => Ok(ty),
                None => Err(refusal_at(FaultCode::Unsupported, at)),
            },
            _ => Err(refusal_at(FaultCode::Kind, at)),
        }
    }
}

/// The type of this name.
fn type_named(name: &str) -> Option<ItemType>
    ensures { result ≡ type_named_in name.now }
{
    if name == "gr" {
        return Some(ItemType::Group);
    }
    if name == "rc" {
        return Some(ItemType::Rectangle);
    }
    if name == "el" {
        return Some(ItemType::Ellipse);
    }
    if name == "sr" {
        return Some(ItemType::Polystar);
    }
    if name == "sh" {
        return Some(ItemType::Path);
    }
    if name == "fl" {
        return Some(ItemType::Fill);
    }
    if name == "st" {
        return Some(ItemType::Stroke);
    }
    if name == "gf" {
        return Some(ItemType::GradientFill);
    }
    if name == "gs" {
        return Some(ItemType::GradientStroke);
    }
    if name == "tm" {
        return Some(ItemType::Trim);
    }
    if name == "tr" {
        return Some(ItemType::Transform);
    }
    None
}

//! The ink of one color.
ghost use Rattle.std.specs.Prelude.{◌≡◌, Some};
ghost use Rattle.lot_paint.specs.Ink.{flat_ink as flat_ink_in};
ghost use Rattle.lot_types.specs.Slots.{HasColor};

use crate::color::rgb_of;
use lot_prop::value_color;
use lot_types::{Color, Doc, Ink, Prop, Time};

/// The ink of a color property at a time.
///
/// A slot that the property names has to be there and to be a color. It takes no memory.
pub(crate) fn flat_ink(d: &Doc, c: &Prop<Color>, t: Time) -> Ink
    requires { HasColor d.now c.now }
    ensures { flat_ink_in d.now c.now t ≡ Some result }
{
    Ink::Flat(rgb_of(&value_color(d, c, t)))
}

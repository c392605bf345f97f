//! The bytes of colors.
ghost use Rattle.std.specs.Prelude.{◌≡◌, ◌≤◌, ◌^◌, unsigned_abs};
ghost use Rattle.lot_paint.specs.Color.{color_byte as color_byte_in, component_in_range as in_range, rgb_of as rgb_in};

use lot_num::rnd_div;
use lot_types::{Color, Fx, Rgb};

/// A color in bytes. Its components are limited to 0 to 1 and rounded.
pub(crate) fn rgb_of(color: &Color) -> Rgb
    ensures { result ≡ rgb_in color.now }
{
    Rgb {
        r: color_byte(color.r),
        g: color_byte(color.g),
        b: color_byte(color.b),
    }
}

/// A component of a color as a byte, rounded. It is limited to 0 to 1.
fn color_byte(v: Fx) -> u8
    ensures { result ≡ color_byte_in v }
{
    rnd_div(component_in_range(v).get() as i128 * 255, 1_000_000).unsigned_abs() as u8
}

/// The number from 0 to 1 that is nearest to a component.
pub(crate) fn component_in_range(v: Fx) -> Fx
    ensures value { result ≡ in_range v }
    ensures small { unsigned_abs result ≤ 10 ^ 6 }
{
    if v.get() < 0 {
        return Fx::ZERO;
    }
    if v.get() > 1_000_000 { Fx::ONE } else { v }
}

//! The stops of the two lists of a gradient.
ghost use Rattle.std.specs.Prelude.{◌≡◌, ◌<◌, ◌+◌, length, IfOk};
ghost use Rattle.lot_paint.specs.Stops.{number_at as number_in, color_from as color_in, color_stops as color_stops_in, opacity_stops as opacity_stops_in};

use crate::color::component_in_range;
use crate::dashes::at_least;
use lot_types::{Color, Fx, Gradient, Memory, Seq};
use std::alloc::Global;

/// A stop of a list: of colors, or of opacities.
#[derive(Drop)]
pub(crate) struct ListStop<V> {
    /// From 0 to 10^6, and not below that of the stop before it.
    pub(crate) offset: Fx,
    pub(crate) value: V,
}

/// How many numbers a color stop has: an offset, red, green and blue.
const COLOR_NUMBERS: usize = 4;

/// How many numbers an opacity stop has: an offset and an opacity.
const OPACITY_NUMBERS: usize = 2;

/// The color stops of a gradient, in order, of which there is at least one. Want of memory is the one refusal.
pub(crate) fn color_stops(alloc: Global, g: &Gradient) -> Result<Seq<ListStop<Color>>, Memory>
    ensures value { IfOk result (λ made. made ≡ color_stops_in g.now) }
    ensures some { IfOk result (λ made. 0 < length made) }
{
    let flat = g.flat.items();
    let count = g.stops as usize;
    let mut made = Seq::with_capacity(alloc, count)?;
    let mut offset = Fx::ZERO;
    for k in 0..count {
        let at = COLOR_NUMBERS * k;
        offset = at_least(offset, number_at(flat, at));
        let value = color_from(flat, at + 1);
        made.push(ListStop { offset, value })?;
    }
    Ok(made)
}

/// The opacity stops of a gradient, in order. Want of memory is the one refusal.
pub(crate) fn opacity_stops(alloc: Global, g: &Gradient) -> Result<Seq<ListStop<Fx>>, Memory>
    ensures { IfOk result (λ made. made ≡ opacity_stops_in g.now) }
{
    let flat = g.flat.items();
    let start = COLOR_NUMBERS * g.stops as usize;
    let count = (flat.len() - start) / OPACITY_NUMBERS;
    let mut made = Seq::with_capacity(alloc, count)?;
    let mut offset = Fx::ZERO;
    for k in 0..count {
        let at = start + OPACITY_NUMBERS * k;
        offset = at_least(offset, number_at(flat, at));
        let value = number_at(flat, at + 1);
        made.push(ListStop { offset, value })?;
    }
    Ok(made)
}

/// The number at an index, limited to 0 to 1.
fn number_at(flat: &[Fx], i: usize) -> Fx
    requires { i < length flat.now }
    ensures { result ≡ number_in flat.now i }
{
    component_in_range(flat[i])
}

/// The color whose red is at an index, with its green and blue after it.
fn color_from(flat: &[Fx], i: usize) -> Color
    requires { i + 2 < length flat.now }
    ensures { result ≡ color_in flat.now i }
{
    Color {
        r: number_at(flat, i),
        g: number_at(flat, i + 1),
        b: number_at(flat, i + 2),
    }
}

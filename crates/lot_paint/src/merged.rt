//! The stops of a gradient: both of its lists in one.
ghost use Rattle.std.specs.Prelude.{◌≡◌, ◌<◌, ◌≤◌, ℕ, length, drop, IfOk};
ghost use Rattle.lot_paint.specs.Merging.{IsReached, next_order as next_order_in};
ghost use Rattle.lot_paint.specs.Stops.{merged_stops as merged_stops_in, color_stops as color_stops_in, stop_of_color as of_color_in, stop_of_opacity as of_opacity_in};
ghost use Rattle.lot_types.specs.Ramp.{Ramp};

use crate::color::rgb_of;
use crate::interpolated::{color_at, opacity_at};
use crate::list_stop::{ListStop, color_stops, opacity_stops};
use lot_types::{Color, Fx, Gradient, Memory, Seq, Stop};
use std::alloc::Global;
use std::cmp::Ordering;

/// The stops of a gradient in order of their offsets: all color stops, and the opacity stops at whose offset there is
/// no color stop. A color stop has the opacity at its offset, and an opacity stop the color at its own. Want of
/// memory is the one refusal.
pub(crate) fn merged_stops(alloc: Global, g: &Gradient) -> Result<Seq<Stop>, Memory>
    ensures { IfOk result (λ made. made ≡ merged_stops_in g.now) }
{
    let colors = color_stops(alloc, g)?;
    let opacities = opacity_stops(alloc, g)?;
    let (colors, opacities) = (colors.items(), opacities.items());
    let mut made = Seq::with_capacity(alloc, colors.len())?;
    let (mut i, mut j) = (0, 0);
    while i < colors.len() || j < opacities.len() {
        match next_order(colors, i, opacities, j) {
            Ordering::Less => {
                made.push(stop_of_color(&colors[i], opacities, j))?;
                i += 1;
            }
            Ordering::Equal => j += 1,
            Ordering::Greater => {
                made.push(stop_of_opacity(&opacities[j], colors, i))?;
                j += 1;
            }
        }
    }
    Ok(made)
}

/// Compares the offset of the color stop at `i` with that of the opacity stop at `j`. A list at its end counts as above
/// the other.
fn next_order(
    colors: &[ListStop<Color>],
    i: usize,
    opacities: &[ListStop<Fx>],
    j: usize,
) -> Ordering
    ensures { result ≡ next_order_in (drop i colors.now) (drop j opacities.now) }
{
    if i >= colors.len() {
        return Ordering::Greater;
    }
    if j >= opacities.len() {
        return Ordering::Less;
    }
    colors[i].offset.get().cmp(&opacities[j].offset.get())
}

/// A color stop with the opacity at its offset. Of the opacity stops the first `j` are not above it.
fn stop_of_color(c: &ListStop<Color>, opacities: &[ListStop<Fx>], j: usize) -> Stop
    requires { IsReached opacities.now c.now.offset j }
    ensures { result ≡ of_color_in opacities.now c.now }
{
    Stop {
        offset: c.offset,
        rgb: rgb_of(&c.value),
        alpha: opacity_at(opacities, j, c.offset),
    }
}

/// An opacity stop with the color at its offset. Of the color stops, one at least, the first `i` are not above it.
fn stop_of_opacity(o: &ListStop<Fx>, colors: &[ListStop<Color>], i: usize) -> Stop
    requires some { 0 < length colors.now }
    requires reached { IsReached colors.now o.now.offset i }
    ensures { (g : Ramp) → colors.now ≡ color_stops_in g → result ≡ of_opacity_in g o.now }
{
    Stop {
        offset: o.offset,
        rgb: rgb_of(&color_at(colors, i, o.offset)),
        alpha: o.value,
    }
}

//! The values between the stops of a list.
ghost use Rattle.std.specs.Prelude.{◌≡◌, ◌<◌, ◌∷◌, List, int_lt, true, false, length};
ghost use Rattle.lot_paint.specs.Stops.{interpolated_number as number_in, interpolated_color, value_of_stops, opacity_at as opacity_in};
ghost use Rattle.lot_paint.specs.Merging.{IsReached};

use crate::list_stop::ListStop;
use lot_geom::limited;
use lot_num::ease_linear;
use lot_types::{Color, Fx};

/// The color at the offset `x` of a list of color stops, of which the first `k` are not above `x`.
///
/// The list is not empty.
pub(crate) fn color_at(stops: &[ListStop<Color>], k: usize, x: Fx) -> Color
    requires some { 0 < length stops.now }
    requires reached { IsReached stops.now x k }
    ensures { (first : ListStop Color) (more : List (ListStop Color)) → stops.now ≡ first ∷ more
        → result ≡ value_of_stops interpolated_color first stops.now x }
{
    if k == 0 {
        return stops[0].value;
    }
    let before = &stops[k - 1];
    if k == stops.len() {
        return before.value;
    }
    color_between(before, &stops[k], x)
}

/// The opacity at the offset `x` of a list of opacity stops, of which the first `k` are not above `x`. It is 1 where
/// the list is empty.
pub(crate) fn opacity_at(stops: &[ListStop<Fx>], k: usize, x: Fx) -> Fx
    requires { IsReached stops.now x k }
    ensures { result ≡ opacity_in stops.now x }
{
    if stops.is_empty() {
        return Fx::ONE;
    }
    if k == 0 {
        return stops[0].value;
    }
    let before = &stops[k - 1];
    if k == stops.len() {
        return before.value;
    }
    let next = &stops[k];
    interpolated_number(before.offset, next.offset, x, before.value, next.value)
}

/// The color at an offset between those of two stops.
fn color_between(before: &ListStop<Color>, next: &ListStop<Color>, x: Fx) -> Color
    requires from { int_lt x before.now.offset ≡ false }
    requires to { int_lt x next.now.offset ≡ true }
    ensures { result ≡ interpolated_color before.now.offset next.now.offset x before.now.value
        next.now.value }
{
    let (low, high) = (before.offset, next.offset);
    let (v, w) = (before.value, next.value);
    Color {
        r: interpolated_number(low, high, x, v.r, w.r),
        g: interpolated_number(low, high, x, v.g, w.g),
        b: interpolated_number(low, high, x, v.b, w.b),
    }
}

/// The number at the offset `x` of the line from `v` at the offset `low` to `w` at the offset `high`, rounded.
#[tactic(auto, unfolding(crate::specs::Stops::interpolated_number))]
fn interpolated_number(low: Fx, high: Fx, x: Fx, v: Fx, w: Fx) -> Fx
    requires from { int_lt x low ≡ false }
    requires to { int_lt x high ≡ true }
    ensures { result ≡ number_in low high x v w }
{
    let passed = x.get() - low.get();
    let whole = high.get() - low.get();
    limited(ease_linear(v.get(), w.get(), passed, whole) as i128)
}

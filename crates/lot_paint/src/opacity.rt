//! The opacity of styles within their groups.
ghost use Rattle.std.specs.Prelude.{◌≡◌, Some, fold};
ghost use Rattle.lot_num.specs.Round.{product as product_in};
ghost use Rattle.lot_paint.specs.Opacity.{style_opacity as opacity_in, within_groups as within_in};
ghost use Rattle.lot_types.specs.Slots.{HasScalar};

use lot_geom::limited;
use lot_num::mul_fx;
use lot_prop::opacity_at;
use lot_types::{Doc, Fx, Prop, Time};

/// The opacity of a style at a time as a fraction in millionths: its own, in per cent, times that of each group that it
/// is in, from the innermost outwards. Each product is rounded.
///
/// A slot that the property names has to be there and to be a scalar. It takes no memory.
pub(crate) fn style_opacity(d: &Doc, o: &Prop<Fx>, t: Time, groups: &[Fx]) -> Fx
    requires { HasScalar d.now o.now }
    ensures { opacity_in d.now o.now t groups.now ≡ Some result }
{
    within_groups(groups, opacity_at(d, o, t))
}

fn within_groups(groups: &[Fx], opacity: Fx) -> Fx
    ensures { result ≡ within_in groups.now opacity }
{
    let mut made = opacity;
    for group in groups {
        made = product(made, *group);
    }
    made
}

/// The product of two fractions, rounded.
fn product(x: Fx, y: Fx) -> Fx
    ensures { result ≡ product_in x y }
{
    limited(mul_fx(x.get(), y.get()) as i128)
}

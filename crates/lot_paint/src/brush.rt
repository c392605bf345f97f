//! The brushes of fills and strokes.
ghost use Rattle.std.specs.Prelude.{◌≡◌, Some, IfOk};
ghost use Rattle.lot_paint.specs.Brush.{fill_brush as fill_in, stroke_value};
ghost use Rattle.lot_types.specs.Items.{DashesHaveValues};
ghost use Rattle.lot_types.specs.Slots.{HasScalar};

use crate::dashes::{Pattern, at_least};
use lot_prop::value_scalar;
use lot_types::{Brush, Dash, Doc, Fx, Memory, Prop, Seq, Time};
use std::alloc::Global;

/// The brush of a fill by the rule `r`: 1 nonzero, 2 even-odd. A number that is none of them counts as 2.
pub(crate) fn fill_brush(r: u8) -> Brush
    ensures { result ≡ fill_in r }
{
    Brush::Fill { even_odd: r != 1 }
}

/// The brush of a stroke of the width `w` and with dashes, at a time. Its width is limited below by 0, and its miter
/// limit by 1; `cap` and `join` are kept as they are. Want of memory is the one refusal.
///
/// A slot that the width or a dash names has to be there and to be a scalar.
pub(crate) fn stroke_brush(
    alloc: Global,
    d: &Doc,
    t: Time,
    w: &Prop<Fx>,
    cap: u8,
    join: u8,
    miter: Fx,
    dashes: &Seq<Dash>,
) -> Result<Brush, Memory>
    requires width { HasScalar d.now w.now }
    requires dashes { DashesHaveValues d.now dashes.now }
    ensures { IfOk result (λ made.
        stroke_value d.now t w.now cap join miter dashes.now ≡ Some made) }
{
    let pattern = Pattern::of(alloc, d, dashes, t)?;
    Ok(Brush::Stroke {
        width: at_least(Fx::ZERO, value_scalar(d, w, t)),
        cap,
        join,
        miter: at_least(Fx::ONE, miter),
        dashes: pattern.lengths,
        dash_offset: pattern.offset,
    })
}

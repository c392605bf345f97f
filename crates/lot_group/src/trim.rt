//! The trims of a list of items.
ghost use Rattle.std.specs.Prelude.{◌≡◌, Some, IfOk};
ghost use Rattle.lot_group.specs.Trim.{cut_with, trimmed_by};
ghost use Rattle.lot_prop.specs.Slots.{scalar_value};
ghost use Rattle.lot_types.specs.Slots.{HasScalar};

use lot_prop::value_scalar;
use lot_trim::{TrimCut, trim_parallel, trim_sequential};
use lot_types::{Doc, Fx, Memory, Outline, Prop, Seq, Time};
use std::alloc::Global;

/// The members of a trim at a time. It takes no memory.
pub(crate) fn cut_at(d: &Doc, s: &Prop<Fx>, e: &Prop<Fx>, o: &Prop<Fx>, t: Time) -> TrimCut
    requires s { HasScalar d.now s.now }
    requires e { HasScalar d.now e.now }
    requires o { HasScalar d.now o.now }
    ensures { cut_with (scalar_value d.now s.now t) (scalar_value d.now e.now t)
        (scalar_value d.now o.now t) ≡ Some result }
{
    TrimCut {
        s: value_scalar(d, s, t),
        e: value_scalar(d, e, t),
        o: value_scalar(d, o, t),
    }
}

/// What a trim leaves of outlines. By the mode 1 each is measured by itself, and by any other all of them one after the
/// other. Want of memory is the one refusal.
pub(crate) fn trimmed(
    alloc: Global,
    os: &Seq<Outline>,
    mode: u8,
    cut: TrimCut,
) -> Result<Seq<Outline>, Memory>
    ensures { IfOk result (λ made. made ≡ trimmed_by mode cut os.now) }
{
    if mode == 1 {
        trim_parallel(alloc, os, cut)
    } else {
        trim_sequential(alloc, os, cut)
    }
}

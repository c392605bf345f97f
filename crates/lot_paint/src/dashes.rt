//! Dash patterns of strokes.
ghost use Rattle.std.specs.Prelude.{◌≡◌, Some, pos, int_lt, IfOk};
ghost use Rattle.std.specs.List.{list_any};
ghost use Rattle.lot_paint.specs.Dashes.{at_least as at_least_in, is_length_kind, is_offset_kind, lengths_value, offset_value, pattern_value};
ghost use Rattle.lot_types.specs.Items.{DashesHaveValues};

use lot_prop::value_scalar;
use lot_types::{Dash, DashKind, Doc, Fx, Memory, Seq, Time};
use std::alloc::Global;

/// A dash pattern at a time, in millionths of a pixel.
#[derive(Drop)]
pub(crate) struct Pattern {
    /// The lengths of dashes and gaps in turn, none of them negative. None of them: the line is whole.
    pub(crate) lengths: Seq<Fx>,
    /// The length at which the line enters the pattern.
    pub(crate) offset: Option<Fx>,
}

impl Pattern {
    /// The pattern of the dashes of a stroke at a time. Where no length is above 0 the line is whole. Want of memory is
    /// the one refusal.
    ///
    /// A slot that one of the numbers names has to be there and to be a scalar.
    pub(crate) fn of(alloc: Global, d: &Doc, dashes: &Seq<Dash>, t: Time) -> Result<Pattern, Memory>
        requires { DashesHaveValues d.now dashes.now }
        ensures { IfOk result (λ made. pattern_value d.now t dashes.now ≡ Some made) }
    {
        let offset = offset_at(d, dashes.items(), t);
        let lengths = lengths_at(alloc, d, dashes.items(), t)?;
        if has_positive(&lengths) {
            return Ok(Pattern { lengths, offset });
        }
        Ok(Pattern {
            lengths: Seq::new(alloc),
            offset: None,
        })
    }
}

/// The lengths of dashes and gaps at a time, in order. One that is negative counts as 0.
#[tactic(auto, using(crate::proofs::Lengths::evaluating))]
fn lengths_at(alloc: Global, d: &Doc, dashes: &[Dash], t: Time) -> Result<Seq<Fx>, Memory>
    requires { DashesHaveValues d.now dashes.now }
    ensures { IfOk result (λ made. lengths_value d.now t dashes.now ≡ Some made) }
{
    let mut made = Seq::new(alloc);
    for dash in dashes {
        if is_length(dash.n) {
            made.push(at_least(Fx::ZERO, value_scalar(d, &dash.v, t)))?;
        }
    }
    Ok(made)
}

/// The last offset at a time, if there is one.
fn offset_at(d: &Doc, dashes: &[Dash], t: Time) -> Option<Fx>
    requires { DashesHaveValues d.now dashes.now }
    ensures { offset_value d.now t dashes.now ≡ Some result }
{
    let mut i = dashes.len();
    while i > 0 {
        i -= 1;
        if is_offset(dashes[i].n) {
            return Some(value_scalar(d, &dashes[i].v, t));
        }
    }
    None
}

fn is_length(n: DashKind) -> bool
    ensures { result ≡ is_length_kind n }
{
    match n {
        DashKind::Dash | DashKind::Gap => true,
        DashKind::Offset => false,
    }
}

fn is_offset(n: DashKind) -> bool
    ensures { result ≡ is_offset_kind n }
{
    match n {
        DashKind::Dash | DashKind::Gap => false,
        DashKind::Offset => true,
    }
}

/// Whether some number is above 0.
fn has_positive(numbers: &Seq<Fx>) -> bool
    ensures { result ≡ list_any (int_lt (pos 0)) numbers.now }
{
    numbers.items().iter().any(|x| x.get() > 0)
}

/// The number that is nearest to `x` and not below `least`.
pub(crate) fn at_least(least: Fx, x: Fx) -> Fx
    ensures { result ≡ at_least_in least x }
{
    if x.get() < least.get() { least } else { x }
}

//! The reader of colors.
ghost use Rattle.std.specs.Prelude.{◌≡◌};
ghost use Rattle.lot_types.specs.declared.slot.SlotKind.TheVariants as slot_kind;
ghost use Rattle.lot_read.specs.Color.{color, part as part_in};

use crate::list::read_item;
use crate::number::NumberValue;
use crate::reader::{Reader, refusal_at};
use crate::value_kind::ValueKind;
use lot_json::{Json, Pointer};
use lot_types::{Color, FaultCode, Fx, Refusal, Seq, SlotKind, Use};

/// Reads a color: the first three items of a list, which are numbers and are limited to 0 to 1. Any other value is
/// [`FaultCode::Kind`], and a shorter list is [`FaultCode::Count`].
#[derive(Clone, Copy)]
pub struct ColorValue;

impl Reader for ColorValue {
    type Value = Color;

    ghost gives = { λ _. color };

    #[tactic(auto, using(crate::proofs::Faults::first_of_prefix), unfolding(crate::specs::Color::color))]
    fn read(&self, at: &mut Pointer, v: &Json, uses: &mut Seq<Use>) -> Result<Color, Refusal> {
        match v {
            Json::Items(items) => match items.items() {
                [r, g, b, ..] => {
                    let r = read_item(0, &NumberValue::Any, at, r, uses)?;
                    let g = read_item(1, &NumberValue::Any, at, g, uses)?;
                    let b = read_item(2, &NumberValue::Any, at, b, uses)?;
                    Ok(Color {
                        r: part(r),
                        g: part(g),
                        b: part(b),
                    })
                }
                _ => Err(refusal_at(FaultCode::Count, at)),
            },
            _ => Err(refusal_at(FaultCode::Kind, at)),
        }
    }
}

impl ValueKind for ColorValue {
    ghost kind = { λ _. slot_kind.Color };

    fn kind(&self) -> SlotKind {
        SlotKind::Color
    }
}

/// The nearest number from 0 to 1.
fn part(x: Fx) -> Fx
    ensures { result ≡ part_in x }
{
    let z = x.get();
    if z < 0 {
        Fx::ZERO
    } else if Fx::ONE.get() < z {
        Fx::ONE
    } else {
        x
    }
}

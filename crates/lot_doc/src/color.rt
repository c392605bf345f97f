//! The reader of the colors of solid layers.
ghost use Rattle.std.specs.Prelude.{◌≡◌};
ghost use Rattle.lot_doc.specs.Color.{hex_digit as digit_in, hex_byte as byte_in, color_of, hex_color};

use lot_json::{Json, Pointer};
use lot_read::{Reader, refusal_at};
use lot_types::{FaultCode, Refusal, Rgb, Seq, Use};

/// The value of a hexadecimal digit of either case, from 0 to 15.
fn hex_digit(c: u8) -> Option<u8>
    ensures { result ≡ digit_in c }
{
    match c {
        b'0'..=b'9' => Some(c - b'0'),
        b'A'..=b'F' => Some(10 + (c - b'A')),
        b'a'..=b'f' => Some(10 + (c - b'a')),
        _ => None,
    }
}

/// The byte of two hexadecimal digits, the higher one first.
fn hex_byte(high: u8, low: u8) -> Option<u8>
    ensures { result ≡ byte_in high low }
{
    let high = hex_digit(high)?;
    let low = hex_digit(low)?;
    Some(16 * high + low)
}

/// The color of `#` and six hexadecimal digits.
#[tactic(auto, unfolding(crate::specs::Color::color_of))]
fn color(text: &[u8]) -> Option<Rgb>
    ensures { result ≡ color_of text.now }
{
    match text {
        [b'#', a, b, c, d, e, f] => {
            let r = hex_byte(*a, *b)?;
            let g = hex_byte(*c, *d)?;
            let b = hex_byte(*e, *f)?;
            Some(Rgb { r, g, b })
        }
        _ => None,
    }
}

/// Reads a color: a text of `#` and six hexadecimal digits of either case, red first. Any other text is
/// [`FaultCode::Value`], and any other value is [`FaultCode::Kind`].
#[derive(Clone, Copy)]
pub struct ColorText;

impl Reader for ColorText {
    type Value = Rgb;

    ghost gives = { λ _. hex_color };

    #[tactic(auto, unfolding(crate::specs::Color::hex_color))]
    fn read(&self, at: &mut Pointer, v: &Json, uses: &mut Seq<Use>) -> Result<Rgb, Refusal> {
        match v {
            Json::Text(t) => match color(t.as_str().as_bytes()) {
                Some(rgb) => Ok(rgb),
                None => Err(refusal_at(FaultCode::Value, at)),
            },
            _ => Err(refusal_at(FaultCode::Kind, at)),
        }
    }
}

//! The reader of texts.
ghost use Rattle.lot_read.specs.Text.{text};

use crate::reader::{Reader, refusal_at};
use lot_json::{Json, Pointer};
use lot_types::{Duplicate, FaultCode, Refusal, Seq, Text, Use};

/// Reads a text. Any other value is [`FaultCode::Kind`].
#[derive(Clone, Copy)]
pub struct TextValue;

impl Reader for TextValue {
    type Value = Text;

    ghost gives = { λ _. text };

    #[tactic(auto, unfolding(crate::specs::Text::text))]
    fn read(&self, at: &mut Pointer, v: &Json, uses: &mut Seq<Use>) -> Result<Text, Refusal> {
        match v {
            Json::Text(t) => Ok(t.copy()?),
            _ => Err(refusal_at(FaultCode::Kind, at)),
        }
    }
}

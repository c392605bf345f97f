//! Numbers outside of a JSON text.

ghost use Rattle.std.specs.Prelude.{◌≡◌, IfSome, IfNone};
ghost use Rattle.lot_json.specs.declared.tree.number.Number.{Number};
ghost use Rattle.lot_json.specs.NumberToken.{IsNumberToken};

use crate::Number;
use crate::tokens::NumberToken;

/// The number of a JSON number token by RFC 8259, section 6, in millionths by its exact value. `None` where the bytes
/// are no number token. Takes no memory, for a token of any length.
pub fn number(bytes: &[u8]) -> Option<Number>
    ensures token { IfSome result (λ n. IsNumberToken bytes.now n) }
    ensures only { IfSome result (λ n. (m : Number) → IsNumberToken bytes.now m → m ≡ n) }
    ensures none { IfNone result ((m : Number) → IsNumberToken bytes.now m → ⊥) }
{
    let (first, rest) = bytes.split_first()?;
    let mut token = NumberToken::new();
    if !token.begin(*first) {
        return None;
    }
    for c in rest {
        if !token.take(*c) {
            return None;
        }
    }
    token.value()
}

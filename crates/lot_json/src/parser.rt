ghost use Rattle.std.specs.Prelude.{IfOk, IfErr};
ghost use Rattle.lot_json.specs.Refusal.{IsOnlyTree, IsNoText};

use crate::{Decoder, Json, JsonRefusal};
use std::alloc::Global;

/// The tree of a JSON text by RFC 8259: UTF-8, perhaps after a byte order mark, with at most 128 arrays and objects
/// open at once. Refuses other bytes with the offset up to which they can become such a text.
pub fn parse(alloc: Global, bytes: &[u8]) -> Result<Json, JsonRefusal>
    ensures only { IfOk result (IsOnlyTree bytes.now) }
    ensures refused { IfErr result (λ e. IsNoText e bytes.now) }
{
    let mut decoder = Decoder::new(alloc)?;
    decoder.feed(bytes)?;
    decoder.finish()
}

ghost use Rattle.std.specs.Prelude.{◌≡◌};
ghost use Rattle.lot_json.specs.declared.refusal.JsonRefusal.TheVariants as refusal;

use lot_types::Memory;
use thiserror::Error;

/// Why bytes were not read into a tree.
#[derive(Clone, Copy, Debug, PartialEq, Eq, Error)]
pub enum JsonRefusal {
    /// The bytes are no JSON text of the profile. The offset is the length in bytes of their longest prefix that a JSON
    /// text begins with: the length of all bytes where the text only is not complete, and at most 2^64 - 1.
    #[error("no JSON text continues with byte {0}")]
    Syntax(u64),
    /// There was no memory for the tree.
    #[error("out of memory")]
    Memory,
}

impl From<Memory> for JsonRefusal {
    ghost from_gives = { λ _ e. e ≡ refusal.Memory };

    fn from(_memory: Memory) -> JsonRefusal {
        JsonRefusal::Memory
    }
}

//! Refusals of readers.

ghost use Rattle.std.specs.Prelude.{◌≡◌};
ghost use Rattle.lot_types.specs.declared.refusal.Refusal.TheVariants as refusal;

use crate::{Fault, Memory};
use thiserror::Error;

/// Why a value is not read.
#[derive(Debug, Drop, Error)]
pub enum Refusal {
    /// The first fault of the value.
    #[error("a fault of the document")]
    Fault(Fault),
    /// Want of memory.
    #[error("out of memory")]
    Memory,
}

impl From<Memory> for Refusal {
    ghost from_gives = { λ _ e. e ≡ refusal.Memory };

    fn from(_memory: Memory) -> Refusal {
        Refusal::Memory
    }
}

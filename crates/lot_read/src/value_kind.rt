//! The kinds of values that properties have.
ghost use Rattle.std.specs.Prelude.{◌≡◌};
ghost use Rattle.lot_types.specs.declared.slot.SlotKind.{SlotKind};

use crate::reader::Reader;
use lot_types::SlotKind;

/// Reads a kind of values that properties have.
pub trait ValueKind: Reader {
    ghost kind: { Self → SlotKind };

    /// The kind of a slot that a property of these values uses. Keyframes of vectors alone have tangents in space.
    fn kind(&self) -> SlotKind
        ensures { result ≡ kind self.now };
}

//! The range of numbers and times.

ghost use Rattle.std.specs.Prelude.{◌↔◌, IsTrue};
ghost use Rattle.lot_types.specs.Range.{InRange};

/// The greatest magnitude in range: ten million, in millionths.
const MAX_MILLIONTHS: u64 = 10_000_000_000_000;

/// Whether a number of millionths is in range.
pub(crate) fn is_in_range(v: i64) -> bool
    ensures { IsTrue result ↔ InRange v }
{
    v.unsigned_abs() <= MAX_MILLIONTHS
}

//! The quarters of circles and ellipses as cubic curves.
ghost use Rattle.std.specs.Prelude.{◌≡◌};
ghost use Rattle.lot_outline.specs.Arc.{arc_handle as arc_handle_in};

use crate::number::times;
use lot_geom::limited;
use lot_types::Fx;

/// The distance of a control point of a quarter from the nearer end where the radius is 1, in millionths.
const HANDLE: i128 = 551_900;

/// The distance of a control point of a quarter from the nearer end, where the radius in that direction is `r`.
#[tactic(auto, unfolding(crate::specs::Arc::arc_handle))]
pub(crate) fn arc_handle(r: Fx) -> Fx
    ensures { result ≡ arc_handle_in r }
{
    times(r, limited(HANDLE))
}

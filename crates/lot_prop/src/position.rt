//! Positions over time.
ghost use Rattle.std.specs.Prelude.{◌≡◌, Some};
ghost use Rattle.lot_prop.specs.Transform.{position_value};
ghost use Rattle.lot_types.specs.Slots.{HasPosition};

use crate::scalar::value_scalar;
use crate::vector::value_vector;
use lot_types::{Doc, Point, Position, Time};

/// The position of a document at a time, in millionths of a pixel, limited to the range.
///
/// The slots that it names have to be there: a vector, or, for a split position, scalars. It takes no memory.
#[tactic(auto, unfolding(crate::specs::Transform::position_value))]
pub fn value_position(d: &Doc, p: &Position, t: Time) -> Point
    requires { HasPosition d.now p.now }
    ensures { position_value d.now p.now t ≡ Some result }
{
    match p {
        Position::Whole(p) => value_vector(d, p, t),
        Position::Split(x, y) => Point {
            x: value_scalar(d, x, t),
            y: value_scalar(d, y, t),
        },
    }
}

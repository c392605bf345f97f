//! The reader of positions.
ghost use Rattle.lot_read.specs.Members.{RowGives, SameMembers};
ghost use Rattle.lot_read.specs.Position.{position_rows, coordinate_rows, whole_rows};
ghost use Rattle.lot_read.specs.SlotNames.{names_in};

use crate::flag::Flag;
use crate::members::{Members, Rows};
use crate::object::Object;
use crate::property::Property;
use crate::scalar::ScalarValue;
use crate::slot_names::SlotNames;
use crate::vector::VectorValue;
use lot_types::{Position, Refusal};

/// Reads a position, in pixels: a property of vectors, or, where its flag `s` is true, one of scalars for each of the
/// needed members `x` and `y`. Where the flag has a fault, that fault comes first, and the position
/// is then read as a property of vectors.
#[derive(Clone, Copy)]
pub struct PositionOf<'a> {
    pub names: &'a SlotNames,
}

impl<'a> Rows for PositionOf<'a> {
    type Value = Position;

    ghost rows = { λ p. position_rows (names_in p.names.now) };

    #[tactic(auto, using(crate::proofs::Faults::first_of_prefix), unfolding(crate::specs::Position::position_rows))]
    fn read_rows(&self, members: &mut Members) -> Result<Position, Refusal> {
        if members.optional("s", &Flag, false)? {
            read_coordinates(self.names, members)
        } else {
            read_whole(self.names, members)
        }
    }
}

/// Reads a property for each coordinate.
#[tactic(auto, using(crate::proofs::Faults::first_of_prefix), unfolding(crate::specs::Position::coordinate_rows))]
fn read_coordinates(names: &SlotNames, members: &mut Members) -> Result<Position, Refusal>
    ensures gives { RowGives result members.old members.new (coordinate_rows (names_in names.now)) }
    ensures same { SameMembers members.old members.new }
{
    let coordinate = Object {
        rows: Property {
            names,
            value: ScalarValue,
        },
    };
    let x = members.needed("x", &coordinate)?;
    let y = members.needed("y", &coordinate)?;
    Ok(Position::Split(x, y))
}

/// Reads one property for both coordinates.
#[tactic(auto, using(crate::proofs::Faults::first_of_prefix), unfolding(crate::specs::Position::whole_rows))]
fn read_whole(names: &SlotNames, members: &mut Members) -> Result<Position, Refusal>
    ensures gives { RowGives result members.old members.new (whole_rows (names_in names.now)) }
    ensures same { SameMembers members.old members.new }
{
    let place = Property {
        names,
        value: VectorValue,
    };
    let p = place.read_rows(members)?;
    Ok(Position::Whole(p))
}

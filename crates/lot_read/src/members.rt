//! The members of an object, and the rows of their table.
ghost use Rattle.std.specs.Prelude.{◌≡◌, [], ◌∷◌};
ghost use Rattle.lot_json.specs.declared.tree.json.Json.{Json};
ghost use Rattle.lot_read.specs.Findings.{Row, under, fault};
ghost use Rattle.lot_read.specs.Members.{RowGives, SameMembers, fixed_in};
ghost use Rattle.lot_read.specs.Outcome.{Gives};
ghost use Rattle.lot_types.specs.Refusals.{Fails};
ghost use Rattle.lot_read.specs.Rows.{needed, optional, maybe, unbuilt};

use crate::reader::{Reader, refusal_at};
use lot_json::{Json, JsonMembers, Pointer};
use lot_types::{FaultCode, Refusal, Seq, Use};

/// The members of the object at a place, and the list of the uses of slots. Each method reads a row of a table.
#[derive(Drop)]
pub struct Members<'a> {
    pub at: &'a mut Pointer,
    pub members: &'a JsonMembers,
    pub uses: &'a mut Seq<Use>,
}

/// Reads a kind of objects by the table of their members.
pub trait Rows {
    type Value: Drop;

    ghost rows: { Self → Row Self.Value };

    /// Reads the object. The answer is its value, its first fault in the order of the rows or want of memory.
    fn read_rows(&self, members: &mut Members) -> Result<Self::Value, Refusal>
        ensures gives { RowGives result members.old members.new (rows self.now) }
        ensures same { SameMembers members.old members.new };
}

impl<'a> Members<'a> {
    /// Reads a member that has to be there. Where it is not the fault is [`FaultCode::Missing`] at its place.
    #[tactic(auto, using(crate::proofs::Faults::first_of_prefix), unfolding(crate::specs::Rows::needed, crate::specs::Members::fixed_in))]
    pub fn needed<R: Reader>(&mut self, name: &str, reader: &R) -> Result<R::Value, Refusal>
        ensures gives { RowGives result self.old self.new (needed name.now (R.gives reader.now)) }
        ensures same { SameMembers self.old self.new }
    {
        match self.members.get(name) {
            Some(v) => self.read_value(name, reader, v),
            None => Err(self.refusal_at(FaultCode::Missing, name)),
        }
    }

    /// Reads a member that has a default.
    #[tactic(auto, using(crate::proofs::Faults::first_of_prefix), unfolding(crate::specs::Rows::optional, crate::specs::Members::fixed_in))]
    pub fn optional<R: Reader>(
        &mut self,
        name: &str,
        reader: &R,
        default: R::Value,
    ) -> Result<R::Value, Refusal>
        ensures gives { RowGives result self.old self.new
            (optional name.now (R.gives reader.now) default) }
        ensures same { SameMembers self.old self.new }
    {
        match self.members.get(name) {
            Some(v) => self.read_value(name, reader, v),
            None => Ok(default),
        }
    }

    /// Reads a member that may be absent.
    #[tactic(auto, using(crate::proofs::Faults::first_of_prefix), unfolding(crate::specs::Rows::maybe, crate::specs::Members::fixed_in))]
    pub fn maybe<R: Reader>(&mut self, name: &str, reader: &R) -> Result<Option<R::Value>, Refusal>
        ensures gives { RowGives result self.old self.new (maybe name.now (R.gives reader.now)) }
        ensures same { SameMembers self.old self.new }
    {
        match self.members.get(name) {
            Some(v) => {
                let x = self.read_value(name, reader, v)?;
                Ok(Some(x))
            }
            None => Ok(None),
        }
    }

    /// Refuses a member that is not built yet. Where it is there the fault is [`FaultCode::Unsupported`] at its place.
    #[tactic(auto, using(crate::proofs::Faults::first_of_prefix), unfolding(crate::specs::Rows::unbuilt, crate::specs::Members::fixed_in))]
    pub fn unbuilt(&mut self, name: &str) -> Result<(), Refusal>
        ensures gives { RowGives result self.old self.new (unbuilt name.now) }
        ensures same { SameMembers self.old self.new }
    {
        match self.members.get(name) {
            Some(_) => Err(self.refusal_at(FaultCode::Unsupported, name)),
            None => Ok(()),
        }
    }

    /// Reads the value `v` that the member of this name has.
    #[tactic(auto, unfolding(crate::specs::Members::fixed_in))]
    pub fn read_value<R: Reader>(
        &mut self,
        name: &str,
        reader: &R,
        v: &Json,
    ) -> Result<R::Value, Refusal>
        ensures gives { RowGives result self.old self.new
            (λ at m. R.gives reader.now (under at name.now) v.now) }
        ensures same { SameMembers self.old self.new }
    {
        self.at.push_name(name.as_bytes())?;
        let read = reader.read(self.at, v, self.uses);
        self.at.pop();
        read
    }

    /// The refusal for a fault at the member of this name. It is [`Refusal::Memory`] where there is none for the text
    /// of its place.
    #[tactic(auto, unfolding(crate::specs::Members::fixed_in))]
    pub fn refusal_at(&mut self, code: FaultCode, name: &str) -> Refusal
        ensures fails { Fails result (fault code (under (fixed_in self.old).at name.now) ∷ []) }
        ensures same { SameMembers self.old self.new }
    {
        match self.at.push_name(name.as_bytes()) {
            Ok(_) => {
                let refusal = refusal_at(code, self.at);
                self.at.pop();
                refusal
            }
            Err(_) => Refusal::Memory,
        }
    }
}

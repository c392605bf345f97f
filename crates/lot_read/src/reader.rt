//! What reads a value.
ghost use Rattle.std.specs.Prelude.{◌≡◌, [], ◌∷◌, List};
ghost use Rattle.lot_json.specs.declared.tree.json.Json.{Json};
ghost use Rattle.lot_json.specs.declared.tree.pointer.Step.{Step};
ghost use Rattle.lot_read.specs.Findings.{Findings, fault};
ghost use Rattle.lot_read.specs.Outcome.{Gives};
ghost use Rattle.lot_types.specs.Refusals.{Fails};

use lot_json::{Json, Pointer};
use lot_types::{Fault, FaultCode, Refusal, Seq, Use};

/// Reads a kind of values.
pub trait Reader {
    type Value: Drop;

    ghost gives: { Self → List Step → Json → Findings Self.Value };

    /// Reads the value `v`, whose place is `at`. The answer is the value, its first fault or want of memory. The uses
    /// of slots in it are put at the end of `uses`; after a refusal nothing is said of that list.
    fn read(&self, at: &mut Pointer, v: &Json, uses: &mut Seq<Use>) -> Result<Self::Value, Refusal>
        ensures gives { Gives result uses.old uses.new (gives self.now at.old v.now) }
        ensures at { at.new ≡ at.old };
}

/// The refusal for a fault at this place. It is [`Refusal::Memory`] where there is none for the text of the place.
pub fn refusal_at(code: FaultCode, at: &Pointer) -> Refusal
    ensures { Fails result (fault code at.now ∷ []) }
{
    match at.text() {
        Ok(pointer) => Refusal::Fault(Fault { code, pointer }),
        Err(_) => Refusal::Memory,
    }
}

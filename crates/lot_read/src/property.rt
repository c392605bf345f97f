//! The reader of properties.
ghost use Rattle.std.specs.Prelude.{◌≡◌, codes};
ghost use Rattle.lot_read.specs.Findings.{under};
ghost use Rattle.lot_read.specs.Members.{RowGives, SameMembers};
ghost use Rattle.lot_read.specs.Property.{no_expression, own, use_of_slot, property_rows, track_rows};
ghost use Rattle.lot_read.specs.SlotNames.{names_in};
ghost use Rattle.lot_read.specs.Track.{track};

use crate::members::{Members, Rows};
use crate::reader::{Reader, refusal_at};
use crate::slot_name::{SlotName, SlotNameOf};
use crate::slot_names::SlotNames;
use crate::track::{Absence, read_track};
use crate::value_kind::ValueKind;
use lot_json::{Json, Pointer};
use lot_types::{FaultCode, Prop, Refusal, Seq, SlotKind, Track, Use};

/// Reads a property of a kind of values: its own value, or the slot that it names among these.
///
/// An expression, which is a text `x`, is [`FaultCode::Unsupported`]. Without `k` the fault is
/// [`FaultCode::Missing`] there, or [`FaultCode::NoValue`] at a property that names a slot which is not there.
#[derive(Clone, Copy)]
pub struct Property<'a, V> {
    pub names: &'a SlotNames,
    pub value: V,
}

impl<'a, V: ValueKind> Rows for Property<'a, V> {
    type Value = Prop<V::Value>;

    ghost rows = { λ p. property_rows (V.kind p.value) (names_in p.names.now) (V.gives p.value) };

    #[tactic(auto, using(crate::proofs::Faults::first_of_prefix), unfolding(crate::specs::Property::property_rows))]
    fn read_rows(&self, members: &mut Members) -> Result<Prop<V::Value>, Refusal> {
        members.optional("x", &NoExpression, ())?;
        let names = SlotNameOf { names: self.names };
        match members.optional("sid", &names, SlotName::Unnamed)? {
            SlotName::Known(slot) => use_slot(slot, self.value.kind(), members),
            SlotName::Unknown => read_own(&self.value, Absence::NoValue, members),
            SlotName::Unnamed => read_own(&self.value, Absence::Missing, members),
        }
    }
}

/// Reads the value of a slot: a property of a kind of values whose `sid` is not read. The faults are those of
/// [`Property`].
#[derive(Clone, Copy)]
pub struct TrackOf<V> {
    pub value: V,
}

impl<V: ValueKind> Rows for TrackOf<V> {
    type Value = Track<V::Value>;

    ghost rows = { λ t. track_rows (V.kind t.value) (V.gives t.value) };

    #[tactic(auto, using(crate::proofs::Faults::first_of_prefix), unfolding(crate::specs::Property::track_rows))]
    fn read_rows(&self, members: &mut Members) -> Result<Track<V::Value>, Refusal> {
        members.optional("x", &NoExpression, ())?;
        read_track(&self.value, Absence::Missing, members)
    }
}

/// Refuses an expression, which is a text: it is [`FaultCode::Unsupported`]. Any other value is not read.
#[derive(Clone, Copy)]
struct NoExpression;

impl Reader for NoExpression {
    type Value = ();

    ghost gives = { λ _. no_expression };

    #[tactic(auto, unfolding(crate::specs::Property::no_expression))]
    fn read(&self, at: &mut Pointer, v: &Json, uses: &mut Seq<Use>) -> Result<(), Refusal> {
        match v {
            Json::Text(_) => Err(refusal_at(FaultCode::Unsupported, at)),
            _ => Ok(()),
        }
    }
}

/// Reads the value of a property that uses no slot.
fn read_own<V: ValueKind>(
    value: &V,
    absence: Absence,
    members: &mut Members,
) -> Result<Prop<V::Value>, Refusal>
    ensures gives { RowGives result members.old members.new
        (λ at m. own (track (V.kind value.now) (V.gives value.now) absence at m)) }
    ensures same { SameMembers members.old members.new }
{
    let track = read_track(value, absence, members)?;
    Ok(Prop::Own(track))
}

/// Puts a use of this slot at the end of the list. Its place is that of the member `sid`.
#[tactic(auto, unfolding(crate::specs::Members::fixed_in))]
fn use_slot<T: Drop>(slot: u32, kind: SlotKind, members: &mut Members) -> Result<Prop<T>, Refusal>
    ensures gives { RowGives result members.old members.new
        (λ at m. use_of_slot kind slot (under at (codes "sid"))) }
    ensures same { SameMembers members.old members.new }
{
    members.at.push_name("sid".as_bytes())?;
    let text = members.at.text();
    members.at.pop();
    let pointer = text?;
    members.uses.push(Use {
        slot,
        kind,
        pointer,
    })?;
    Ok(Prop::Slot(slot))
}

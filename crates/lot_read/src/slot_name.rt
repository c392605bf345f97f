//! The name of a slot in a property.
ghost use Rattle.std.specs.Prelude.{◌≡◌};
ghost use Rattle.lot_read.specs.Property.{slot_name, slot_found};
ghost use Rattle.lot_read.specs.SlotNames.{names_in};

use crate::reader::{Reader, refusal_at};
use crate::slot_names::SlotNames;
use lot_json::{Json, Pointer};
use lot_types::{FaultCode, Refusal, Seq, Use};

/// The slot that a property names.
#[derive(Clone, Copy)]
pub enum SlotName {
    /// It names none.
    Unnamed,
    /// No slot has the name.
    Unknown,
    /// The slot of this number has the name.
    Known(u32),
}

impl SlotName {
    /// The slot of a text that names one, by the number that was found for it.
    fn of(found: Option<u32>) -> SlotName
        ensures { result ≡ slot_found found }
    {
        match found {
            Some(slot) => SlotName::Known(slot),
            None => SlotName::Unknown,
        }
    }
}

/// Reads the name of a slot, a text. Any other value is [`FaultCode::Kind`].
#[derive(Clone, Copy)]
pub(crate) struct SlotNameOf<'a> {
    pub names: &'a SlotNames,
}

impl<'a> Reader for SlotNameOf<'a> {
    type Value = SlotName;

    ghost gives = { λ s. slot_name (names_in s.names.now) };

    #[tactic(auto, unfolding(crate::specs::Property::slot_name))]
    fn read(&self, at: &mut Pointer, v: &Json, uses: &mut Seq<Use>) -> Result<SlotName, Refusal> {
        match v {
            Json::Text(t) => Ok(SlotName::of(self.names.find(t.as_str().as_bytes()))),
            _ => Err(refusal_at(FaultCode::Kind, at)),
        }
    }
}

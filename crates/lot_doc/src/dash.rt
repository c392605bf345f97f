//! The reader of dashes.
ghost use Rattle.std.specs.Prelude.{◌≡◌};
ghost use Rattle.lot_read.specs.SlotNames.{names_in};
ghost use Rattle.lot_doc.specs.Style.{dash_kind, dash_kind_named as dash_kind_named_in, dash_rows};

use lot_json::{Json, Pointer};
use lot_read::{Members, Reader, Rows, ScalarValue, SlotNames, needed_property, refusal_at};
use lot_types::{Dash, DashKind, FaultCode, Refusal, Seq, Use};

/// Reads a number of a dash pattern: what it is, `n`, and the number, `v`.
#[derive(Clone, Copy)]
pub(crate) struct DashRows<'a> {
    /// The names of the slots of the document.
    pub names: &'a SlotNames,
}

impl<'a> Rows for DashRows<'a> {
    type Value = Dash;

    ghost rows = { λ r. dash_rows (names_in r.names.now) };

    #[tactic(auto, using(lot_read::proofs::Faults::first_of_prefix), unfolding(crate::specs::Style::dash_rows))]
    fn read_rows(&self, members: &mut Members) -> Result<Dash, Refusal> {
        let n = members.needed("n", &DashKindValue)?;
        let v = needed_property(ScalarValue, self.names, "v", members)?;
        Ok(Dash { n, v })
    }
}

/// Reads what a number of a dash pattern is: `d`, `g` or `o`. Any other text is [`FaultCode::Value`], and any other
/// value is [`FaultCode::Kind`].
#[derive(Clone, Copy)]
struct DashKindValue;

impl Reader for DashKindValue {
    type Value = DashKind;

    ghost gives = { λ _. dash_kind };

    #[tactic(auto, unfolding(crate::specs::Style::dash_kind))]
    fn read(&self, at: &mut Pointer, v: &Json, uses: &mut Seq<Use>) -> Result<DashKind, Refusal> {
        match v {
            Json::Text(t) => match dash_kind_named(t.as_str()) {
                Some(n) => Ok(n),
                None => Err(refusal_at(FaultCode::Value, at)),
            },
            _ => Err(refusal_at(FaultCode::Kind, at)),
        }
    }
}

/// The kind of a dash by its member `n`. `None` where no kind has this name.
fn dash_kind_named(name: &str) -> Option<DashKind>
    ensures { result ≡ dash_kind_named_in name.now }
{
    if name == "d" {
        return Some(DashKind::Dash);
    }
    if name == "g" {
        return Some(DashKind::Gap);
    }
    if name == "o" {
        return Some(DashKind::Offset);
    }
    None
}

//! The names of slots and the values of properties that name one, which no document that is accepted has yet, and the
//! text of pointers with such names.
ghost use Rattle.std.specs.Prelude.{◌≡◌};

use lot_json::{Json, Pointer, parse};
use lot_prop::value_scalar;
use lot_read::SlotNames;
use lot_types::{Doc, Fx, MAX_LIST_ITEMS, Name, Prop, Seq, Slot, SlotValue, Time, Track};
use std::alloc::Global;
use std::test::Fail;

fn names_of(alloc: Global, slots: &Json) -> Result<SlotNames, Fail> {
    match slots {
        Json::Members(m) if m.pairs().len() <= MAX_LIST_ITEMS => Ok(SlotNames::of(alloc, m)?),
        _ => Ok(SlotNames::none(alloc)),
    }
}

/// The number of a slot among the members of `slots`.
fn number_of_slot(alloc: Global, slots: &str, name: &[u8]) -> Result<Option<u32>, Fail> {
    let json = parse(alloc, slots.as_bytes())?;
    let names = names_of(alloc, &json)?;
    Ok(names.find(name))
}

#[test]
fn slots_are_found_by_their_names(rt: HostRuntime) -> Result<(), Fail> {
    let alloc = rt.alloc();
    let slots = r#"{"a":{},"b":{},"a":{}}"#;
    assert_eq!(rt; number_of_slot(alloc, slots, b"b")?, Some(1));
    assert_eq!(rt; number_of_slot(alloc, slots, b"c")?, None);
    Ok(())
}

/// The time 0.
fn start() -> Time {
    match Time::new(0) {
        Some(t) => t,
        None => unreachable!(),
    }
}

/// A document with some slots, and nothing else.
fn document(alloc: Global, slots: Seq<Slot>) -> Doc
    ensures { result.slots ≡ slots }
{
    Doc {
        w: Fx::ZERO,
        h: Fx::ZERO,
        fr: Fx::ONE,
        ip: start(),
        op: start(),
        slots,
        comps: Seq::new(alloc),
    }
}

#[test]
#[tactic(auto, unfolding(lot_types::specs::Slots::HasValue))]
fn a_property_takes_the_value_of_its_slot(rt: HostRuntime) -> Result<(), Fail> {
    let alloc = rt.alloc();
    let mut slots = Seq::new(alloc);
    slots.push(Slot {
        name: Name::of(alloc, "unused")?,
        value: SlotValue::Unused,
        uses: 0,
    })?;
    slots.push(Slot {
        name: Name::of(alloc, "size")?,
        value: SlotValue::Scalar(Track::Still(Fx::ONE)),
        uses: 1,
    })?;
    let d = document(alloc, slots);
    assert_eq!(rt; value_scalar(&d, &Prop::Slot(1), start()), Fx::ONE);
    Ok(())
}

#[test]
fn pointers_are_escaped(rt: HostRuntime) -> Result<(), Fail> {
    let alloc = rt.alloc();
    let mut at = Pointer::new(alloc)?;
    assert_eq!(rt; at.text()?.as_str(), "");
    at.push_name(b"a/b~c")?;
    at.push_index(12)?;
    at.push_name(b"")?;
    assert_eq!(rt; at.text()?.as_str(), "/a~1b~0c/12/");
    Ok(())
}

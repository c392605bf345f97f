//! What a property is over time.
ghost use Rattle.std.specs.Prelude.{◌≡◌, [], ◌∷◌, Some, codes};
ghost use Rattle.lot_read.specs.Findings.{◌on◌, under};
ghost use Rattle.lot_read.specs.Flag.{flag};
ghost use Rattle.lot_read.specs.Members.{RowGives, SameMembers, fixed_in};
ghost use Rattle.lot_types.specs.Refusals.{Fails};
ghost use Rattle.lot_read.specs.Rows.{maybe};
ghost use Rattle.lot_read.specs.Track.{track, absent, by_flag, moves as moves_in, is_list_of_keys as list_of_keys_in, begins_with_key as key_first_in};

use crate::flag::Flag;
use crate::keyframe::KeysOf;
use crate::members::Members;
use crate::reader::refusal_at;
use crate::value_kind::ValueKind;
use lot_json::Json;
use lot_types::{FaultCode, Refusal, Track};

/// The fault of a property without `k`.
#[derive(Clone, Copy)]
pub enum Absence {
    /// [`FaultCode::Missing`] at `k`.
    Missing,
    /// [`FaultCode::NoValue`] at the property, which names a slot that is not there.
    NoValue,
}

/// Reads the members `k` and `a` of a property that uses no slot. What moves has keyframes.
#[tactic(auto, using(crate::proofs::Faults::first_of_prefix), unfolding(crate::specs::Track::track, crate::specs::Members::fixed_in))]
pub(crate) fn read_track<V: ValueKind>(
    value: &V,
    absence: Absence,
    members: &mut Members,
) -> Result<Track<V::Value>, Refusal>
    ensures gives { RowGives result members.old members.new
        (track (V.kind value.now) (V.gives value.now) absence) }
    ensures same { SameMembers members.old members.new }
{
    match members.members.get("k") {
        Some(k) => read_by_flag(value, k, members),
        None => Err(refuse_absent(absence, members)),
    }
}

/// The refusal of a property without `k`.
#[tactic(auto, unfolding(crate::specs::Members::fixed_in))]
fn refuse_absent(absence: Absence, members: &mut Members) -> Refusal
    ensures fails { Fails result (absent {T = Unit {0}} absence (fixed_in members.old).at).faults }
    ensures same { SameMembers members.old members.new }
{
    match absence {
        Absence::Missing => members.refusal_at(FaultCode::Missing, "k"),
        Absence::NoValue => refusal_at(FaultCode::NoValue, members.at),
    }
}

/// Reads the flag `a` and then `k`, which is there.
fn read_by_flag<V: ValueKind>(
    value: &V,
    k: &Json,
    members: &mut Members,
) -> Result<Track<V::Value>, Refusal>
    ensures gives { RowGives result members.old members.new (λ at m.
        maybe (codes "a") flag at m on by_flag (V.kind value.now) (V.gives value.now) k.now (under at (codes "k"))) }
    ensures same { SameMembers members.old members.new }
{
    let a = members.maybe("a", &Flag)?;
    if moves(a, k) {
        let keys = members.read_value("k", &KeysOf { value }, k)?;
        return Ok(Track::Moving(keys));
    }
    let x = members.read_value("k", value, k)?;
    Ok(Track::Still(x))
}

/// Whether a property with this flag and `k` moves.
fn moves(a: Option<bool>, k: &Json) -> bool
    ensures { result ≡ moves_in (Some a) k.now }
{
    match a {
        Some(a) => a,
        None => is_list_of_keys(k),
    }
}

/// Whether a value is a list whose first item is an object that has a time.
#[tactic(auto, unfolding(crate::specs::Track::is_list_of_keys))]
fn is_list_of_keys(v: &Json) -> bool
    ensures { result ≡ list_of_keys_in v.now }
{
    match v {
        Json::Items(items) => begins_with_key(items.items()),
        _ => false,
    }
}

/// Whether the first item is an object that has a time.
fn begins_with_key(items: &[Json]) -> bool
    ensures { result ≡ key_first_in items.now }
{
    match items {
        [Json::Members(m), ..] => m.get("t").is_some(),
        _ => false,
    }
}

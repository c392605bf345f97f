//! The reader of keyframes.
ghost use Rattle.std.specs.Prelude.{◌≡◌, ◌<◌, ◌∷◌, length, Some, None, IfOk};
ghost use Rattle.lot_types.specs.Limits.{max_list_items};
ghost use Rattle.lot_read.specs.Findings.{item};
ghost use Rattle.lot_read.specs.Keyframe.{time_rows, time_of, start_value, both_handles as both_in, ease_rows, space_tangent, tangent_rows, key_rows, each_key, keys, IsNotBefore};
ghost use Rattle.lot_read.specs.Members.{RowGives, SameMembers, fixed_in};
ghost use Rattle.lot_read.specs.Outcome.{Gives};
ghost use Rattle.lot_read.specs.Rows.{object};

use crate::flag::Flag;
use crate::handle::HandleRows;
use crate::members::Members;
use crate::moment::Moment;
use crate::object::Object;
use crate::reader::{Reader, refusal_at};
use crate::value_kind::ValueKind;
use crate::vector::VectorValue;
use lot_json::{Json, Pointer};
use lot_types::{
    Ease3, FaultCode, Fx, Key, Keys, MAX_LIST_ITEMS, Point, Refusal, Seq, SlotKind, Time, Use,
};

/// Reads the keyframes of a property that moves: a list of at least one, else [`FaultCode::Count`], and of at most
/// [`MAX_LIST_ITEMS`].
#[derive(Clone, Copy)]
pub(crate) struct KeysOf<'a, V> {
    pub value: &'a V,
}

impl<'a, V: ValueKind> Reader for KeysOf<'a, V> {
    type Value = Keys<V::Value>;

    ghost gives = { λ k. keys (V.kind k.value.now) (V.gives k.value.now) };

    #[tactic(auto, using(crate::proofs::Faults::first_of_prefix), unfolding(crate::specs::Keyframe::keys))]
    fn read(
        &self,
        at: &mut Pointer,
        v: &Json,
        uses: &mut Seq<Use>,
    ) -> Result<Keys<V::Value>, Refusal> {
        match v {
            Json::Items(items) => {
                if MAX_LIST_ITEMS < items.items().len() {
                    return Err(refusal_at(FaultCode::TooMany, at));
                }
                match items.items() {
                    [first, rest @ ..] => read_keys(self.value, at, first, rest, uses),
                    [] => Err(refusal_at(FaultCode::Count, at)),
                }
            }
            _ => Err(refusal_at(FaultCode::Kind, at)),
        }
    }
}

/// Reads the first keyframe and the rest in order.
#[tactic(auto, using(crate::proofs::Faults::first_of_prefix), unfolding(crate::specs::Keyframe::each_key))]
fn read_keys<V: ValueKind>(
    value: &V,
    at: &mut Pointer,
    first: &Json,
    rest: &[Json],
    uses: &mut Seq<Use>,
) -> Result<Keys<V::Value>, Refusal>
    requires few { length rest.now < max_list_items }
    ensures gives { Gives result uses.old uses.new
        (each_key (V.kind value.now) (V.gives value.now) None at.old 0 (first.now ∷ rest.now)) }
    ensures at { at.new ≡ at.old }
{
    let key = read_item_key(0, value, None, at, first, uses)?;
    let mut before = key.t;
    let mut made = Keys::first(at.allocator(), key)?;
    for (i, v) in rest.iter().enumerate() {
        let key = read_item_key(i as u64 + 1, value, Some(before), at, v, uses)?;
        before = key.t;
        made.push(key)?;
    }
    Ok(made)
}

/// Reads the keyframe of this index, which comes after one of the time `before`.
fn read_item_key<V: ValueKind>(
    i: u64,
    value: &V,
    before: Option<Time>,
    at: &mut Pointer,
    v: &Json,
    uses: &mut Seq<Use>,
) -> Result<Key<V::Value>, Refusal>
    ensures gives { Gives result uses.old uses.new
        (object (key_rows (V.kind value.now) (V.gives value.now) before) (item at.old i) v.now) }
    ensures time { IfOk result (λ k. time_of before (item at.old i) v.now ≡ Some k.t) }
    ensures order { IfOk result (λ k. IsNotBefore before k.t) }
    ensures at { at.new ≡ at.old }
{
    at.push_index(i)?;
    let read = read_object_key(value, before, at, v, uses);
    at.pop();
    read
}

/// Reads a keyframe, an object. Any other value is [`FaultCode::Kind`].
#[tactic(auto, using(crate::proofs::Faults::first_of_prefix), unfolding(crate::specs::Rows::object, crate::specs::Members::fixed_in))]
fn read_object_key<V: ValueKind>(
    value: &V,
    before: Option<Time>,
    at: &mut Pointer,
    v: &Json,
    uses: &mut Seq<Use>,
) -> Result<Key<V::Value>, Refusal>
    ensures gives { Gives result uses.old uses.new
        (object (key_rows (V.kind value.now) (V.gives value.now) before) at.old v.now) }
    ensures time { IfOk result (λ k. time_of before at.old v.now ≡ Some k.t) }
    ensures order { IfOk result (λ k. IsNotBefore before k.t) }
    ensures at { at.new ≡ at.old }
{
    match v {
        Json::Members(members) => {
            let mut members = Members { at, members, uses };
            read_key(value, before, &mut members)
        }
        _ => Err(refusal_at(FaultCode::Kind, at)),
    }
}

const HANDLE: Object<HandleRows> = Object { rows: HandleRows };

const NO_TANGENT: Point = Point {
    x: Fx::ZERO,
    y: Fx::ZERO,
};

/// The tangents of the curve through space, in pixels from their keyframes: the one that leaves a keyframe, and the one
/// that reaches the next.
#[derive(Clone, Copy)]
struct Tangents {
    to: Point,
    ti: Point,
}

/// Reads the members of a keyframe that comes after one of the time `before`. [`FaultCode::Order`] is at `t`, and a
/// keyframe without a value is [`FaultCode::Unsupported`]. The tangents, in pixels, are vectors, and last.
#[tactic(auto, using(crate::proofs::Faults::first_of_prefix), unfolding(crate::specs::Keyframe::key_rows))]
fn read_key<V: ValueKind>(
    value: &V,
    before: Option<Time>,
    members: &mut Members,
) -> Result<Key<V::Value>, Refusal>
    ensures gives { RowGives result members.old members.new
        (key_rows (V.kind value.now) (V.gives value.now) before) }
    ensures time { IfOk result (λ k.
        (time_rows before (fixed_in members.old).at (fixed_in members.old).pairs).value ≡ Some k.t) }
    ensures order { IfOk result (λ k. IsNotBefore before k.t) }
    ensures same { SameMembers members.old members.new }
{
    let t = read_time(before, members)?;
    let start = read_start(value, members)?;
    let hold = members.optional("h", &Flag, false)?;
    let ease = read_ease(members)?;
    let Tangents { to, ti } = read_tangents(value.kind(), members)?;
    Ok(Key {
        t,
        value: start,
        hold,
        ease,
        to,
        ti,
    })
}

/// Reads the time of a keyframe, which is not below that of the one before.
#[tactic(auto, using(crate::proofs::Faults::first_of_prefix), unfolding(crate::specs::Keyframe::time_rows))]
fn read_time(before: Option<Time>, members: &mut Members) -> Result<Time, Refusal>
    ensures gives { RowGives result members.old members.new (time_rows before) }
    ensures order { IfOk result (λ t. IsNotBefore before t) }
    ensures same { SameMembers members.old members.new }
{
    let t = members.needed("t", &Moment)?;
    if let Some(before) = before {
        if t.get() < before.get() {
            return Err(members.refusal_at(FaultCode::Order, "t"));
        }
    }
    Ok(t)
}

/// Reads the value of a keyframe. Where it is absent the keyframe is [`FaultCode::Unsupported`].
#[tactic(auto, using(crate::proofs::Faults::first_of_prefix), unfolding(crate::specs::Keyframe::start_value, crate::specs::Members::fixed_in))]
fn read_start<V: Reader>(value: &V, members: &mut Members) -> Result<V::Value, Refusal>
    ensures gives { RowGives result members.old members.new (start_value (V.gives value.now)) }
    ensures same { SameMembers members.old members.new }
{
    match members.members.get("s") {
        Some(s) => members.read_value("s", value, s),
        None => Err(refusal_at(FaultCode::Unsupported, members.at)),
    }
}

/// Reads the handles of the easing after a keyframe. Where one is absent it is not eased.
#[tactic(auto, using(crate::proofs::Faults::first_of_prefix), unfolding(crate::specs::Keyframe::ease_rows))]
fn read_ease(members: &mut Members) -> Result<Option<(Ease3, Ease3)>, Refusal>
    ensures gives { RowGives result members.old members.new ease_rows }
    ensures same { SameMembers members.old members.new }
{
    let o = members.maybe("o", &HANDLE)?;
    let i = members.maybe("i", &HANDLE)?;
    Ok(both_handles(o, i))
}

/// Both handles, where they are there.
fn both_handles(o: Option<Ease3>, i: Option<Ease3>) -> Option<(Ease3, Ease3)>
    ensures { result ≡ both_in o i }
{
    match (o, i) {
        (Some(o), Some(i)) => Some((o, i)),
        _ => None,
    }
}

/// Reads the tangents of the curve through space.
#[tactic(auto, using(crate::proofs::Faults::first_of_prefix), unfolding(crate::specs::Keyframe::tangent_rows))]
fn read_tangents(kind: SlotKind, members: &mut Members) -> Result<Tangents, Refusal>
    ensures gives { RowGives result members.old members.new (tangent_rows kind) }
    ensures same { SameMembers members.old members.new }
{
    let to = read_tangent(kind, "to", members)?;
    let ti = read_tangent(kind, "ti", members)?;
    Ok(Tangents { to, ti })
}

/// Reads a tangent of the curve through space: a vector, (0, 0) where it is absent. Vectors alone have one.
#[tactic(auto, unfolding(crate::specs::Keyframe::space_tangent))]
fn read_tangent(kind: SlotKind, name: &str, members: &mut Members) -> Result<Point, Refusal>
    ensures gives { RowGives result members.old members.new (space_tangent kind name.now) }
    ensures same { SameMembers members.old members.new }
{
    match kind {
        SlotKind::Vector => members.optional(name, &VectorValue, NO_TANGENT),
        _ => Ok(NO_TANGENT),
    }
}

//! The reader of paths.
ghost use Rattle.std.specs.Prelude.{◌≡◌, ◌≤◌, length, codes, OnOk, IfOk, Some};
ghost use Rattle.lot_types.specs.declared.slot.SlotKind.TheVariants as slot_kind;
ghost use Rattle.lot_types.specs.Limits.{max_list_items};
ghost use Rattle.lot_read.specs.Bezier.{bezier, vertex_rows, bezier_rows, as_many, HasCount};
ghost use Rattle.lot_read.specs.Members.{RowGives, SameMembers};

use crate::flag::Flag;
use crate::list::ListOf;
use crate::members::{Members, Rows};
use crate::object::Object;
use crate::reader::Reader;
use crate::value_kind::ValueKind;
use crate::value_or_first::ValueOrFirst;
use crate::vector::VectorValue;
use lot_json::{Json, Pointer};
use lot_types::{Bezier, FaultCode, MAX_LIST_ITEMS, Point, Refusal, Seq, SlotKind, Use};

/// Reads a path of cubic curves: an object, or the first item of a list, which is one. Its members are the flag `c`
/// and the lists `v`, `i` and `o` of vectors, which have at most [`MAX_LIST_ITEMS`] items each. [`FaultCode::Count`]
/// is at `i` or `o` where its length is not that of `v`.
#[derive(Clone, Copy)]
pub struct BezierValue;

const BEZIER: ValueOrFirst<Object<BezierRows>> = ValueOrFirst {
    value: Object { rows: BezierRows },
};

const VECTORS: ListOf<VectorValue> = ListOf {
    max: MAX_LIST_ITEMS,
    item: VectorValue,
};

impl Reader for BezierValue {
    type Value = Bezier;

    ghost gives = { λ _. bezier };

    fn read(&self, at: &mut Pointer, v: &Json, uses: &mut Seq<Use>) -> Result<Bezier, Refusal> {
        BEZIER.read(at, v, uses)
    }
}

impl ValueKind for BezierValue {
    ghost kind = { λ _. slot_kind.Bezier };

    fn kind(&self) -> SlotKind {
        SlotKind::Bezier
    }
}

/// Reads the members of a path.
#[derive(Clone, Copy)]
struct BezierRows;

impl Rows for BezierRows {
    type Value = Bezier;

    ghost rows = { λ _. bezier_rows };

    #[tactic(auto, using(crate::proofs::Faults::first_of_prefix), unfolding(crate::specs::Bezier::bezier_rows))]
    fn read_rows(&self, members: &mut Members) -> Result<Bezier, Refusal> {
        let closed = members.optional("c", &Flag, false)?;
        let Vertices { v, i, o } = read_vertices(members)?;
        refuse_other_count("i", members, v.items().len(), i.items().len())?;
        refuse_other_count("o", members, v.items().len(), o.items().len())?;
        Ok(Bezier { closed, v, i, o })
    }
}

/// The vertices of a path and their tangents, which may be more or fewer.
#[derive(Drop)]
struct Vertices {
    v: Seq<Point>,
    i: Seq<Point>,
    o: Seq<Point>,
}

/// Reads the vertices of a path and their tangents.
#[tactic(auto, using(crate::proofs::Faults::first_of_prefix, crate::proofs::Lengths::needed_count, crate::proofs::Lengths::needed_few), unfolding(crate::specs::Bezier::vertex_rows))]
fn read_vertices(members: &mut Members) -> Result<Vertices, Refusal>
    ensures gives { RowGives result members.old members.new vertex_rows }
    ensures few { IfOk result (λ found. length found.v ≤ max_list_items) }
    ensures v { IfOk result (λ found. HasCount (codes "v") members.old found.v) }
    ensures i { IfOk result (λ found. HasCount (codes "i") members.old found.i) }
    ensures o { IfOk result (λ found. HasCount (codes "o") members.old found.o) }
    ensures same { SameMembers members.old members.new }
{
    let v = members.needed("v", &VECTORS)?;
    let i = members.needed("i", &VECTORS)?;
    let o = members.needed("o", &VECTORS)?;
    Ok(Vertices { v, i, o })
}

/// Refuses a list of tangents that has not as many items as that of the vertices: [`FaultCode::Count`] at the member
/// of this name.
#[tactic(auto, unfolding(crate::specs::Bezier::as_many))]
fn refuse_other_count(
    name: &str,
    members: &mut Members,
    vertices: usize,
    tangents: usize,
) -> Result<(), Refusal>
    ensures gives { RowGives result members.old members.new
        (λ at m. as_many name.now at (Some vertices) (Some tangents)) }
    ensures equal { OnOk result (tangents ≡ vertices) }
    ensures same { SameMembers members.old members.new }
{
    if vertices != tangents {
        return Err(members.refusal_at(FaultCode::Count, name));
    }
    Ok(())
}

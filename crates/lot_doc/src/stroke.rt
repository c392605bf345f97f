//! The reader of strokes.
ghost use Rattle.std.specs.Prelude.{◌≡◌};
ghost use Rattle.lot_read.specs.Members.{RowGives, SameMembers};
ghost use Rattle.lot_read.specs.SlotNames.{names_in};
ghost use Rattle.lot_doc.specs.Style.{default_miter as default_miter_in, cap_and_join_rows, line_rows, stroke_rows};

use crate::dash::DashRows;
use crate::item_head::read_head;
use lot_read::{
    Choice, ColorValue, ListOf, Members, NumberValue, Object, ScalarValue, SlotNames,
    hundred_per_cent, needed_property, scalar_or,
};
use lot_types::{Dash, Fx, Item, MAX_LIST_ITEMS, Prop, Refusal, Seq};

const END: Choice = Choice { low: 1, high: 3 };

/// The ends and the corners of a stroke that names none: round.
const ROUND: u8 = 2;

/// How a line ends and turns: the cap at its ends, the join at its corners, and the miter limit of a join.
#[derive(Clone, Copy)]
struct CapAndJoin {
    lc: u8,
    lj: u8,
    ml: Fx,
}

/// The members that all strokes have.
#[derive(Drop)]
pub(crate) struct Line {
    pub w: Prop<Fx>,
    pub lc: u8,
    pub lj: u8,
    pub ml: Fx,
    pub d: Seq<Dash>,
}

/// Reads a stroke: its color `c`, its opacity `o`, which is 100 per cent where it is absent, and its line.
#[tactic(auto, using(lot_read::proofs::Faults::first_of_prefix), unfolding(crate::specs::Style::stroke_rows))]
pub(crate) fn read_stroke(names: &SlotNames, members: &mut Members) -> Result<Item, Refusal>
    ensures gives { RowGives result members.old members.new (stroke_rows (names_in names.now)) }
    ensures same { SameMembers members.old members.new }
{
    let hidden = read_head(members)?;
    let c = needed_property(ColorValue, names, "c", members)?;
    let o = scalar_or(hundred_per_cent(), names, "o", members)?;
    let line = read_line(names, members)?;
    Ok(Item::Stroke {
        hidden,
        c,
        o,
        w: line.w,
        lc: line.lc,
        lj: line.lj,
        ml: line.ml,
        d: line.d,
    })
}

/// Reads the members that all strokes have: the width `w`, how the line ends and turns, and the dashes `d`, none where
/// they are absent.
#[tactic(auto, using(lot_read::proofs::Faults::first_of_prefix), unfolding(crate::specs::Style::line_rows))]
pub(crate) fn read_line(names: &SlotNames, members: &mut Members) -> Result<Line, Refusal>
    ensures gives { RowGives result members.old members.new (line_rows (names_in names.now)) }
    ensures same { SameMembers members.old members.new }
{
    let dashes = ListOf {
        max: MAX_LIST_ITEMS,
        item: Object {
            rows: DashRows { names },
        },
    };
    let w = needed_property(ScalarValue, names, "w", members)?;
    let CapAndJoin { lc, lj, ml } = read_cap_and_join(members)?;
    let none = Seq::new(members.at.allocator());
    let d = members.optional("d", &dashes, none)?;
    Ok(Line { w, lc, lj, ml, d })
}

/// Reads the cap `lc` and the join `lj` of a line, which are round where they are absent, and the miter limit `ml`, 4.
#[tactic(auto, using(lot_read::proofs::Faults::first_of_prefix), unfolding(crate::specs::Style::cap_and_join_rows))]
fn read_cap_and_join(members: &mut Members) -> Result<CapAndJoin, Refusal>
    ensures gives { RowGives result members.old members.new cap_and_join_rows }
    ensures same { SameMembers members.old members.new }
{
    let lc = members.optional("lc", &END, ROUND)?;
    let lj = members.optional("lj", &END, ROUND)?;
    let ml = members.optional("ml", &NumberValue::Any, default_miter())?;
    Ok(CapAndJoin { lc, lj, ml })
}

/// The miter limit of a stroke that names none: 4, in millionths.
#[tactic(auto, unfolding(crate::specs::Style::default_miter))]
fn default_miter() -> Fx
    ensures { result ≡ default_miter_in }
{
    match Fx::new(4_000_000) {
        Some(x) => x,
        None => unreachable!(),
    }
}

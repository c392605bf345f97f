//! The readers of the styles that have a gradient.
ghost use Rattle.std.specs.Prelude.{◌<◌};
ghost use Rattle.lot_read.specs.Members.{RowGives, SameMembers};
ghost use Rattle.lot_read.specs.SlotNames.{names_in};
ghost use Rattle.lot_doc.specs.Gradient.{colors_rows, stops_rows, needed_stops, geometry_rows, focus_rows, base_gradient_rows, gradient_fill_rows, gradient_stroke_rows};

use crate::fill::read_fill_rule;
use crate::item_head::read_head;
use crate::stroke::read_line;
use lot_read::{
    Choice, GradientValue, Members, Object, Rows, SlotNames, VectorValue, Whole, hundred_per_cent,
    needed_property, scalar_or,
};
use lot_types::{Fx, Item, Point, Prop, Refusal, Stops};

const KIND: Choice = Choice { low: 1, high: 2 };

/// The kind of a gradient that names none. The other kind, 2, is a radial one.
const LINEAR: u8 = 1;

/// The greatest number of stops.
const MAX_STOPS: u32 = 1024;

const STOP_COUNT: Whole = Whole {
    low: 1,
    high: MAX_STOPS,
};

/// The points between which a gradient lies, and its kind.
#[derive(Drop)]
pub(crate) struct Geometry {
    s: Prop<Point>,
    e: Prop<Point>,
    t: u8,
}

/// The distance of the focus of a radial gradient, and its angle.
#[derive(Drop)]
pub(crate) struct Focus {
    h: Prop<Fx>,
    a: Prop<Fx>,
}

/// The members that all gradients have.
#[derive(Drop)]
pub(crate) struct BaseGradient {
    o: Prop<Fx>,
    s: Prop<Point>,
    e: Prop<Point>,
    t: u8,
    g: Stops,
    h: Prop<Fx>,
    a: Prop<Fx>,
}

/// Reads a fill by a gradient: what all gradients have, and its rule `r`.
#[tactic(auto, using(lot_read::proofs::Faults::first_of_prefix), unfolding(crate::specs::Gradient::gradient_fill_rows))]
pub(crate) fn read_gradient_fill(names: &SlotNames, members: &mut Members) -> Result<Item, Refusal>
    ensures gives { RowGives result members.old members.new
        (gradient_fill_rows (names_in names.now)) }
    ensures same { SameMembers members.old members.new }
{
    let hidden = read_head(members)?;
    let base = read_base_gradient(names, members)?;
    let r = read_fill_rule(members)?;
    Ok(Item::GradientFill {
        hidden,
        o: base.o,
        s: base.s,
        e: base.e,
        t: base.t,
        g: base.g,
        h: base.h,
        a: base.a,
        r,
    })
}

/// Reads a stroke by a gradient: what all gradients have, and its line.
#[tactic(auto, using(lot_read::proofs::Faults::first_of_prefix), unfolding(crate::specs::Gradient::gradient_stroke_rows))]
pub(crate) fn read_gradient_stroke(
    names: &SlotNames,
    members: &mut Members,
) -> Result<Item, Refusal>
    ensures gives { RowGives result members.old members.new
        (gradient_stroke_rows (names_in names.now)) }
    ensures same { SameMembers members.old members.new }
{
    let hidden = read_head(members)?;
    let base = read_base_gradient(names, members)?;
    let line = read_line(names, members)?;
    Ok(Item::GradientStroke {
        hidden,
        o: base.o,
        s: base.s,
        e: base.e,
        t: base.t,
        g: base.g,
        h: base.h,
        a: base.a,
        w: line.w,
        lc: line.lc,
        lj: line.lj,
        ml: line.ml,
        d: line.d,
    })
}

/// Reads the members that all gradients have: the opacity `o`, which is 100 per cent where it is absent, the points `s`
/// and `e`, the kind `t`, which is linear where it is absent, the stops `g`, and the distance `h` and the angle `a` of
/// the focus, which are 0 where they are absent.
#[tactic(auto, using(lot_read::proofs::Faults::first_of_prefix), unfolding(crate::specs::Gradient::base_gradient_rows))]
fn read_base_gradient(names: &SlotNames, members: &mut Members) -> Result<BaseGradient, Refusal>
    ensures gives { RowGives result members.old members.new
        (base_gradient_rows (names_in names.now)) }
    ensures same { SameMembers members.old members.new }
{
    let o = scalar_or(hundred_per_cent(), names, "o", members)?;
    let geometry = read_geometry(names, members)?;
    let g = read_stops(names, members)?;
    let focus = read_focus(names, members)?;
    Ok(BaseGradient {
        o,
        s: geometry.s,
        e: geometry.e,
        t: geometry.t,
        g,
        h: focus.h,
        a: focus.a,
    })
}

/// Reads the points between which a gradient lies, and its kind.
#[tactic(auto, using(lot_read::proofs::Faults::first_of_prefix), unfolding(crate::specs::Gradient::geometry_rows))]
fn read_geometry(names: &SlotNames, members: &mut Members) -> Result<Geometry, Refusal>
    ensures gives { RowGives result members.old members.new
        (geometry_rows (names_in names.now)) }
    ensures same { SameMembers members.old members.new }
{
    let s = needed_property(VectorValue, names, "s", members)?;
    let e = needed_property(VectorValue, names, "e", members)?;
    let t = members.optional("t", &KIND, LINEAR)?;
    Ok(Geometry { s, e, t })
}

/// Reads the focus of a radial gradient.
#[tactic(auto, using(lot_read::proofs::Faults::first_of_prefix), unfolding(crate::specs::Gradient::focus_rows))]
fn read_focus(names: &SlotNames, members: &mut Members) -> Result<Focus, Refusal>
    ensures gives { RowGives result members.old members.new (focus_rows (names_in names.now)) }
    ensures same { SameMembers members.old members.new }
{
    let h = scalar_or(Fx::ZERO, names, "h", members)?;
    let a = scalar_or(Fx::ZERO, names, "a", members)?;
    Ok(Focus { h, a })
}

/// Reads the stops `g` of a gradient.
#[tactic(auto, unfolding(crate::specs::Gradient::needed_stops))]
fn read_stops(names: &SlotNames, members: &mut Members) -> Result<Stops, Refusal>
    ensures gives { RowGives result members.old members.new
        (needed_stops (names_in names.now)) }
    ensures same { SameMembers members.old members.new }
{
    let reader = Object {
        rows: StopsRows { names },
    };
    members.needed("g", &reader)
}

/// Reads the stops of a gradient: their number `p`, from 1 to 1024, and their colors `k`. After a fault of their number
/// the colors are not read.
#[derive(Clone, Copy)]
struct StopsRows<'a> {
    /// The names of the slots of the document.
    pub names: &'a SlotNames,
}

impl<'a> Rows for StopsRows<'a> {
    type Value = Stops;

    ghost rows = { λ r. stops_rows (names_in r.names.now) };

    #[tactic(auto, using(lot_read::proofs::Faults::first_of_prefix, crate::proofs::Stops::some_stops), unfolding(crate::specs::Gradient::stops_rows))]
    fn read_rows(&self, members: &mut Members) -> Result<Stops, Refusal> {
        let p = members.needed("p", &STOP_COUNT)?;
        read_colors(self.names, p, members)
    }
}

/// Reads the colors of `p` stops.
#[tactic(auto, using(lot_read::proofs::Faults::first_of_prefix), unfolding(crate::specs::Gradient::colors_rows))]
fn read_colors(names: &SlotNames, p: u32, members: &mut Members) -> Result<Stops, Refusal>
    requires { 0 < p }
    ensures gives { RowGives result members.old members.new (colors_rows (names_in names.now) p) }
    ensures same { SameMembers members.old members.new }
{
    let k = needed_property(GradientValue { stops: p }, names, "k", members)?;
    Ok(Stops { p, k })
}

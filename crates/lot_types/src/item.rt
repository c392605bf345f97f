//! Shapes, styles and groups of shape layers.

ghost use Rattle.std.specs.Prelude.{◌≡◌, IfOk};
ghost use Rattle.lot_types.specs.declared.item.Item.TheVariants as item;
ghost use Rattle.lot_types.specs.Items.{is_hidden as is_hidden_in};

use crate::duplicate::{copy_four, copy_three, copy_two};
use crate::{Bezier, Color, Dash, Duplicate, Fx, Memory, Point, Prop, Seq, Stops, Transform};

/// An item of a shape layer, after the Lottie Specification 1.0, "Shapes". Each field is the member of the same name;
/// `hidden` is `hd`, and `or_` and `is_` are `or` and `is`.
///
/// Lengths are in millionths of a pixel, angles in millionths of a degree, and roundness, opacity and parts of a path
/// in millionths of a per cent. Where `d` is 3 a shape is drawn in the reverse direction. A number of a `u8` field that
/// is none of those that are named counts as the greatest of them.
#[derive(Drop)]
pub enum Item {
    /// Items with a transform of their own.
    Group {
        hidden: bool,
        it: Seq<Item>,
    },
    /// A rectangle about the center `p`, of the size `s`, with corners of the radius `r`.
    Rect {
        hidden: bool,
        p: Prop<Point>,
        s: Prop<Point>,
        r: Prop<Fx>,
        d: Option<Fx>,
    },
    /// An ellipse about the center `p`, of the size `s`.
    Ellipse {
        hidden: bool,
        p: Prop<Point>,
        s: Prop<Point>,
        d: Option<Fx>,
    },
    /// A star (`sy` 1) or a polygon (`sy` 2) about the center `p`, with `pt` points, turned by `r`. The outer points
    /// have the radius `or_` and the roundness `os`, and the inner ones `ir` and `is_`.
    Star {
        hidden: bool,
        sy: u8,
        pt: Prop<Fx>,
        p: Prop<Point>,
        r: Prop<Fx>,
        or_: Prop<Fx>,
        os: Prop<Fx>,
        ir: Prop<Fx>,
        is_: Prop<Fx>,
        d: Option<Fx>,
    },
    /// A path.
    Path {
        hidden: bool,
        ks: Prop<Bezier>,
        d: Option<Fx>,
    },
    /// A fill of the color `c` and the opacity `o`, by the rule `r`: 1 nonzero, 2 even-odd.
    Fill {
        hidden: bool,
        c: Prop<Color>,
        o: Prop<Fx>,
        r: u8,
    },
    /// A stroke of the color `c`, the opacity `o` and the width `w`. Its ends are `lc` (1 butt, 2 round, 3 square), its
    /// corners `lj` (1 miter, 2 round, 3 bevel), its miter limit `ml`, in millionths, and its dashes `d`.
    Stroke {
        hidden: bool,
        c: Prop<Color>,
        o: Prop<Fx>,
        w: Prop<Fx>,
        lc: u8,
        lj: u8,
        ml: Fx,
        d: Seq<Dash>,
    },
    /// A fill by a gradient from `s` to `e`, of the colors `g`: 1 linear, 2 radial (`t`). Of a radial one `h` is the
    /// distance of the focus from `s` in per cent of the radius, and `a` the angle of the focus.
    GradientFill {
        hidden: bool,
        o: Prop<Fx>,
        s: Prop<Point>,
        e: Prop<Point>,
        t: u8,
        g: Stops,
        h: Prop<Fx>,
        a: Prop<Fx>,
        r: u8,
    },
    /// A stroke by a gradient.
    GradientStroke {
        hidden: bool,
        o: Prop<Fx>,
        s: Prop<Point>,
        e: Prop<Point>,
        t: u8,
        g: Stops,
        h: Prop<Fx>,
        a: Prop<Fx>,
        w: Prop<Fx>,
        lc: u8,
        lj: u8,
        ml: Fx,
        d: Seq<Dash>,
    },
    /// Leaves of the shapes before it the part from `s` to `e`, moved by the angle `o` of the whole: of each shape by
    /// itself (`m` 1), or of all of them as one (`m` 2).
    Trim {
        hidden: bool,
        s: Prop<Fx>,
        e: Prop<Fx>,
        o: Prop<Fx>,
        m: u8,
    },
    /// The transform of the group that it is in.
    Place {
        hidden: bool,
        ks: Transform,
    },
}

impl Item {
    /// The member `hd`: the item counts as absent, with all that it holds.
    #[tactic(auto, using(crate::proofs::Variants::hidden_kinds))]
    pub fn is_hidden(&self) -> bool
        ensures { result ≡ is_hidden_in self.now }
    {
        match self {
            Item::Group { hidden, .. } => *hidden,
            Item::Rect { hidden, .. } => *hidden,
            Item::Ellipse { hidden, .. } => *hidden,
            Item::Star { hidden, .. } => *hidden,
            Item::Path { hidden, .. } => *hidden,
            Item::Fill { hidden, .. } => *hidden,
            Item::Stroke { hidden, .. } => *hidden,
            Item::GradientFill { hidden, .. } => *hidden,
            Item::GradientStroke { hidden, .. } => *hidden,
            Item::Trim { hidden, .. } => *hidden,
            Item::Place { hidden, .. } => *hidden,
        }
    }
}

impl Duplicate for Item {
    fn copy(&self) -> Result<Item, Memory> {
        copy_item(self)
    }
}

// The recursion over groups: the list's own copy would come back here through the trait.
fn copy_item(item: &Item) -> Result<Item, Memory>
    ensures { IfOk result (λ made. made ≡ item.now) }
{
    match item {
        Item::Group { hidden, it } => {
            let mut made = Seq::new(it.allocator());
            for x in it.items() {
                made.push(copy_item(x)?)?;
            }
            Ok(Item::Group {
                hidden: *hidden,
                it: made,
            })
        }
        Item::Rect { hidden, p, s, r, d } => copy_rect(*hidden, p, s, r, *d),
        Item::Ellipse { hidden, p, s, d } => copy_ellipse(*hidden, p, s, *d),
        Item::Star {
            hidden,
            sy,
            pt,
            p,
            r,
            or_,
            os,
            ir,
            is_,
            d,
        } => copy_star(*hidden, *sy, pt, p, r, or_, os, ir, is_, *d),
        Item::Path { hidden, ks, d } => copy_path(*hidden, ks, *d),
        Item::Fill { hidden, c, o, r } => copy_fill(*hidden, c, o, *r),
        Item::Stroke {
            hidden,
            c,
            o,
            w,
            lc,
            lj,
            ml,
            d,
        } => copy_stroke(*hidden, c, o, w, *lc, *lj, *ml, d),
        Item::GradientFill {
            hidden,
            o,
            s,
            e,
            t,
            g,
            h,
            a,
            r,
        } => copy_gradient_fill(*hidden, o, s, e, *t, g, h, a, *r),
        Item::GradientStroke {
            hidden,
            o,
            s,
            e,
            t,
            g,
            h,
            a,
            w,
            lc,
            lj,
            ml,
            d,
        } => copy_gradient_stroke(*hidden, o, s, e, *t, g, h, a, w, *lc, *lj, *ml, d),
        Item::Trim { hidden, s, e, o, m } => copy_trim(*hidden, s, e, o, *m),
        Item::Place { hidden, ks } => copy_place(*hidden, ks),
    }
}

// Copies of the other items, each by its members.

fn copy_rect(
    hidden: bool,
    p: &Prop<Point>,
    s: &Prop<Point>,
    r: &Prop<Fx>,
    d: Option<Fx>,
) -> Result<Item, Memory>
    ensures { IfOk result (λ made. made ≡ item.Rect hidden p.now s.now r.now d) }
{
    let (p, s, r) = copy_three(p, s, r)?;
    Ok(Item::Rect { hidden, p, s, r, d })
}

fn copy_ellipse(
    hidden: bool,
    p: &Prop<Point>,
    s: &Prop<Point>,
    d: Option<Fx>,
) -> Result<Item, Memory>
    ensures { IfOk result (λ made. made ≡ item.Ellipse hidden p.now s.now d) }
{
    let (p, s) = copy_two(p, s)?;
    Ok(Item::Ellipse { hidden, p, s, d })
}

fn copy_star(
    hidden: bool,
    sy: u8,
    pt: &Prop<Fx>,
    p: &Prop<Point>,
    r: &Prop<Fx>,
    or_: &Prop<Fx>,
    os: &Prop<Fx>,
    ir: &Prop<Fx>,
    is_: &Prop<Fx>,
    d: Option<Fx>,
) -> Result<Item, Memory>
    ensures { IfOk result
        (λ made. made ≡ item.Star hidden sy pt.now p.now r.now or_.now os.now ir.now is_.now d) }
{
    let (pt, p, r) = copy_three(pt, p, r)?;
    let (or_, os, ir, is_) = copy_four(or_, os, ir, is_)?;
    Ok(Item::Star {
        hidden,
        sy,
        pt,
        p,
        r,
        or_,
        os,
        ir,
        is_,
        d,
    })
}

fn copy_path(hidden: bool, ks: &Prop<Bezier>, d: Option<Fx>) -> Result<Item, Memory>
    ensures { IfOk result (λ made. made ≡ item.Path hidden ks.now d) }
{
    Ok(Item::Path {
        hidden,
        ks: ks.copy()?,
        d,
    })
}

fn copy_fill(hidden: bool, c: &Prop<Color>, o: &Prop<Fx>, r: u8) -> Result<Item, Memory>
    ensures { IfOk result (λ made. made ≡ item.Fill hidden c.now o.now r) }
{
    let (c, o) = copy_two(c, o)?;
    Ok(Item::Fill { hidden, c, o, r })
}

fn copy_stroke(
    hidden: bool,
    c: &Prop<Color>,
    o: &Prop<Fx>,
    w: &Prop<Fx>,
    lc: u8,
    lj: u8,
    ml: Fx,
    d: &Seq<Dash>,
) -> Result<Item, Memory>
    ensures { IfOk result
        (λ made. made ≡ item.Stroke hidden c.now o.now w.now lc lj ml d.now) }
{
    let (c, o, w, d) = copy_four(c, o, w, d)?;
    Ok(Item::Stroke {
        hidden,
        c,
        o,
        w,
        lc,
        lj,
        ml,
        d,
    })
}

fn copy_gradient_fill(
    hidden: bool,
    o: &Prop<Fx>,
    s: &Prop<Point>,
    e: &Prop<Point>,
    t: u8,
    g: &Stops,
    h: &Prop<Fx>,
    a: &Prop<Fx>,
    r: u8,
) -> Result<Item, Memory>
    ensures { IfOk result
        (λ made. made ≡ item.GradientFill hidden o.now s.now e.now t g.now h.now a.now r) }
{
    let (o, s, e) = copy_three(o, s, e)?;
    let (g, h, a) = copy_three(g, h, a)?;
    Ok(Item::GradientFill {
        hidden,
        o,
        s,
        e,
        t,
        g,
        h,
        a,
        r,
    })
}

fn copy_gradient_stroke(
    hidden: bool,
    o: &Prop<Fx>,
    s: &Prop<Point>,
    e: &Prop<Point>,
    t: u8,
    g: &Stops,
    h: &Prop<Fx>,
    a: &Prop<Fx>,
    w: &Prop<Fx>,
    lc: u8,
    lj: u8,
    ml: Fx,
    d: &Seq<Dash>,
) -> Result<Item, Memory>
    ensures { IfOk result (λ made. made ≡ item.GradientStroke hidden
        o.now s.now e.now t g.now h.now a.now w.now lc lj ml d.now) }
{
    let (o, s, e, g) = copy_four(o, s, e, g)?;
    let (h, a, w, d) = copy_four(h, a, w, d)?;
    Ok(Item::GradientStroke {
        hidden,
        o,
        s,
        e,
        t,
        g,
        h,
        a,
        w,
        lc,
        lj,
        ml,
        d,
    })
}

fn copy_trim(hidden: bool, s: &Prop<Fx>, e: &Prop<Fx>, o: &Prop<Fx>, m: u8) -> Result<Item, Memory>
    ensures { IfOk result (λ made. made ≡ item.Trim hidden s.now e.now o.now m) }
{
    let (s, e, o) = copy_three(s, e, o)?;
    Ok(Item::Trim { hidden, s, e, o, m })
}

fn copy_place(hidden: bool, ks: &Transform) -> Result<Item, Memory>
    ensures { IfOk result (λ made. made ≡ item.Place hidden ks.now) }
{
    Ok(Item::Place {
        hidden,
        ks: ks.copy()?,
    })
}

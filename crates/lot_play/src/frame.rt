//! The frame of a document, as SVG.
ghost use Rattle.std.specs.Prelude.{◌≡◌, ℕ, ◌+◌, ◌≤◌, ◌<◌, Some, List, ◌∷◌, length, fold, OnOk, IfOk};
ghost use Rattle.lot_comp.specs.Frame.{frame, nodes, is_visible as visible_at, shows as shows_in};
ghost use Rattle.lot_comp.specs.Full.{AreFull, full_matrix, layer_at};
ghost use Rattle.lot_comp.specs.Piece.{IsUnmasked};
ghost use Rattle.lot_play.specs.Evaluations.{layers_shown};
ghost use Rattle.lot_play.specs.Picture.{svg_of};
ghost use Rattle.lot_play.specs.Walk.{after_frame, after_piece};
ghost use Rattle.lot_refs.specs.Linked.{layers_of};
ghost use Rattle.lot_svg.specs.Written.{paint};
ghost use Rattle.lot_types.specs.Frame.{visits};
ghost use Rattle.lot_types.specs.Limits.{max_layers};

use lot_comp::{full_matrices, piece_with};
use lot_refs::Linked;
use lot_svg::Writer;
use lot_types::{Bytes, Layer, LayerKind, Matrix, Memory, Paint, Piece, Steps, Time};
use std::alloc::Global;
use std::sync::ledger::Ledger;

/// The frame of a document at a time, in millionths of a frame, as SVG. Each layer that it shows is evaluated at most
/// once, and no other. Want of memory is the one refusal.
#[tactic(auto, unfolding(crate::specs::Picture::svg_of))]
pub fn draw_frame<L: Ledger>(
    alloc: Global,
    d: &Linked,
    t: Time,
    steps: &mut Steps<L>,
) -> Result<Bytes, Memory>
    ensures svg { IfOk result (λ svg. svg_of d.now t ≡ Some svg) }
    ensures evaluated { steps.new ≤ steps.old + layers_shown d.now t }
    ensures counted { steps.new ≤ steps.old + max_layers }
{
    let doc = d.doc();
    let main = doc.comps.items().len() - 1;
    let mut w = Writer::new(alloc)?;
    w.begin(doc.w, doc.h)?;
    write_layers(alloc, d, main as u32, t, &mut w, steps)?;
    w.end()
}

/// Writes the layers of composition `c` that are drawn, from the last to the first.
fn write_layers<L: Ledger>(
    alloc: Global,
    d: &Linked,
    c: u32,
    t: Time,
    w: &mut Writer,
    steps: &mut Steps<L>,
) -> Result<(), Memory>
    requires comp { c < length d.now.comps }
    ensures written { OnOk result (after_frame d.now (frame d.now c t) w.old ≡ Some w.new) }
    ensures evaluated { steps.new ≤ steps.old + length (visits (frame d.now c t)) }
    ensures counted { steps.new ≤ steps.old + max_layers }
{
    let matrices = full_matrices(alloc, d, c, t)?;
    write_drawn(alloc, d, c, t, matrices.items(), w, steps)
}

/// Writes the layers of composition `c` that are drawn, from the last to the first. The full matrix of each layer is
/// given.
fn write_drawn<L: Ledger>(
    alloc: Global,
    d: &Linked,
    c: u32,
    t: Time,
    matrices: &[Matrix],
    w: &mut Writer,
    steps: &mut Steps<L>,
) -> Result<(), Memory>
    requires comp { c < length d.now.comps }
    requires matrices { AreFull d.now c t matrices.now }
    ensures written { OnOk result (after_frame d.now (frame d.now c t) w.old ≡ Some w.new) }
    ensures evaluated { steps.new ≤ steps.old + length (visits (frame d.now c t)) }
    ensures counted { steps.new ≤ steps.old + max_layers }
{
    let drawn = d.drawn_layers(c);
    let mut i = drawn.len();
    while i > 0 {
        i -= 1;
        let l = drawn[i];
        write_layer(alloc, d, c, l, t, &matrices[l as usize], w, steps)?;
    }
    Ok(())
}

/// Writes layer `l` of composition `c`, where it is visible. Its full matrix is given.
fn write_layer<L: Ledger>(
    alloc: Global,
    d: &Linked,
    c: u32,
    l: u32,
    t: Time,
    matrix: &Matrix,
    w: &mut Writer,
    steps: &mut Steps<L>,
) -> Result<(), Memory>
    requires comp { c < length d.now.comps }
    requires layer { l < length (layers_of d.now c) }
    requires matrix { full_matrix d.now c l t ≡ Some matrix.now }
    ensures written { OnOk result ((ls : List ℕ) → after_frame d.now (nodes d.now c t ls) w.new
        ≡ after_frame d.now (nodes d.now c t (l ∷ ls)) w.old) }
    ensures evaluated { (ls : List ℕ) → steps.new + length (visits (nodes d.now c t ls))
        ≤ steps.old + length (visits (nodes d.now c t (l ∷ ls))) }
    ensures counted { steps.new ≤ steps.old + 1 }
{
    if !is_visible(layer_of(d, c, l), t) {
        return Ok(());
    }
    let p = piece_with(alloc, d, c, l, t, matrix, steps)?;
    write_piece(w, &p)
}

/// Layer `l` of composition `c`.
fn layer_of<'a>(d: &'a Linked, c: u32, l: u32) -> &'a Layer
    requires comp { c < length d.now.comps }
    requires layer { l < length (layers_of d.now c) }
    ensures { layer_at d.now c l ≡ Some result.now }
{
    &d.doc().comps.items()[c as usize].layers.items()[l as usize]
}

/// Whether a layer is visible at a time.
fn is_visible(layer: &Layer, t: Time) -> bool
    ensures { result ≡ visible_at t layer.now }
{
    shows(&layer.kind) && !layer.hidden && layer.ip.get() <= t.get() && t.get() < layer.op.get()
}

/// Whether layers of a kind show anything.
fn shows(kind: &LayerKind) -> bool
    ensures { result ≡ shows_in kind.now }
{
    match kind {
        LayerKind::Precomp { .. } => true,
        LayerKind::Solid { .. } => true,
        LayerKind::Null => false,
        LayerKind::Shape(_) => true,
    }
}

/// Writes a layer without a matte: its group, with its paints in it.
fn write_piece(w: &mut Writer, p: &Piece) -> Result<(), Memory>
    requires { IsUnmasked p.now }
    ensures { OnOk result (w.new ≡ after_piece p.now w.old) }
{
    w.open_layer(None, p)?;
    write_paints(w, p.paints.items())?;
    w.close_layer(false)
}

/// Writes paints in order.
fn write_paints(w: &mut Writer, paints: &[Paint]) -> Result<(), Memory>
    ensures { OnOk result (w.new ≡ fold paint w.old paints.now) }
{
    for p in paints {
        w.paint(p)?;
    }
    Ok(())
}

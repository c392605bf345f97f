//! Layers at a time.
ghost use Rattle.std.specs.Prelude.{◌≡◌, ◌<◌, ◌+◌, Some, length, IfOk};
ghost use Rattle.lot_comp.specs.Full.{full_matrix};
ghost use Rattle.lot_comp.specs.Piece.{piece_of, paints_of as paints_in, IsUnmasked};
ghost use Rattle.lot_refs.specs.Linked.{layers_of};
ghost use Rattle.lot_types.specs.WellFormed.{HasKindValues, IsBuiltKind};

use crate::full_matrix::full_of;
use crate::shape::shape_paints;
use crate::solid::solid_paint;
use lot_prop::opacity_at;
use lot_refs::Linked;
use lot_types::{Doc, LayerKind, Matrix, Memory, Paint, Piece, Seq, Steps, Time};
use std::alloc::Global;
use std::sync::ledger::Ledger;

/// Layer `l` of composition `c` at a time: its matrix along its parents, its opacity and what it shows, whether it is
/// visible or not. The counter rises by one, whatever the answer is. Want of memory is the one refusal.
///
/// The layer has to be there. Where several layers of a composition are evaluated, [`piece_with`] takes the matrices
/// that [`full_matrices`](crate::full_matrices) makes of all of them.
pub fn piece<L: Ledger>(
    alloc: Global,
    d: &Linked,
    c: u32,
    l: u32,
    t: Time,
    steps: &mut Steps<L>,
) -> Result<Piece, Memory>
    requires comp { c < length d.now.comps }
    requires layer { l < length (layers_of d.now c) }
    ensures value { IfOk result (λ p. piece_of d.now c l t ≡ Some p) }
    ensures unmasked { IfOk result (λ p. IsUnmasked p) }
    ensures counted { steps.new ≡ steps.old + 1 }
{
    let matrix = full_of(alloc, d, c, l, t);
    evaluated(alloc, d, c, l, t, matrix, steps)
}

/// The same, where the full matrix of the layer at the time is given.
pub fn piece_with<L: Ledger>(
    alloc: Global,
    d: &Linked,
    c: u32,
    l: u32,
    t: Time,
    matrix: &Matrix,
    steps: &mut Steps<L>,
) -> Result<Piece, Memory>
    requires comp { c < length d.now.comps }
    requires layer { l < length (layers_of d.now c) }
    requires matrix { full_matrix d.now c l t ≡ Some matrix.now }
    ensures value { IfOk result (λ p. piece_of d.now c l t ≡ Some p) }
    ensures unmasked { IfOk result (λ p. IsUnmasked p) }
    ensures counted { steps.new ≡ steps.old + 1 }
{
    evaluated(alloc, d, c, l, t, Ok(*matrix), steps)
}

/// The layer with its full matrix, where there was memory for that.
#[tactic(auto, unfolding(crate::specs::Piece::piece_of))]
fn evaluated<L: Ledger>(
    alloc: Global,
    d: &Linked,
    c: u32,
    l: u32,
    t: Time,
    matrix: Result<Matrix, Memory>,
    steps: &mut Steps<L>,
) -> Result<Piece, Memory>
    requires comp { c < length d.now.comps }
    requires layer { l < length (layers_of d.now c) }
    requires matrix { IfOk matrix (λ m. full_matrix d.now c l t ≡ Some m) }
    ensures value { IfOk result (λ p. piece_of d.now c l t ≡ Some p) }
    ensures unmasked { IfOk result (λ p. IsUnmasked p) }
    ensures counted { steps.new ≡ steps.old + 1 }
{
    steps.tick();
    let matrix = matrix?;
    let doc = d.doc();
    let layer = &doc.comps.items()[c as usize].layers.items()[l as usize];
    let paints = paints_of(alloc, doc, &layer.kind, t)?;
    Ok(Piece {
        matrix,
        opacity: opacity_at(doc, &layer.ks.o, t),
        paints,
        masked: false,
        white: false,
        masks: Seq::new(alloc),
        remap: None,
    })
}

/// What a layer shows at a time.
fn paints_of(alloc: Global, d: &Doc, kind: &LayerKind, t: Time) -> Result<Seq<Paint>, Memory>
    requires built { IsBuiltKind kind.now }
    requires values { HasKindValues d.now kind.now }
    ensures value { IfOk result (λ paints. paints_in d.now t kind.now ≡ Some paints) }
{
    match kind {
        LayerKind::Solid { w, h, rgb } => {
            let mut paints = Seq::with_capacity(alloc, 1)?;
            paints.push(solid_paint(alloc, *w, *h, *rgb)?)?;
            Ok(paints)
        }
        LayerKind::Null => Ok(Seq::new(alloc)),
        LayerKind::Precomp { .. } => unreachable!(),
        LayerKind::Shape(items) => shape_paints(alloc, d, items, t),
    }
}

//! The full matrices of all layers of a composition.
ghost use Rattle.std.specs.Prelude.{◌≡◌, ℕ, ◌<◌, Option, Some, None, List, length, reverse, slice_index_or, option_copied, IfNone, IfSome, OnOk, IfOk};
ghost use Rattle.std.specs.List.{All};
ghost use Rattle.lot_comp.specs.Full.{AreFull, full_matrix};
ghost use Rattle.lot_comp.specs.FullTable.{AreFullIfMade, IsMade, IsClimbed, IsLeft};
ghost use Rattle.lot_refs.specs.Linked.{layers_of};
ghost use Rattle.lot_refs.specs.Parents.{parent_of};

use crate::full_matrix::own_at;
use lot_geom::then;
use lot_refs::Linked;
use lot_types::{Matrix, Memory, Seq, Time};
use std::alloc::Global;

/// The full matrix of each layer of composition `c` at a time: its own matrix, and then that of its parent. Each is
/// made once, in time that grows with the layers. Want of memory is the one refusal.
pub fn full_matrices(alloc: Global, d: &Linked, c: u32, t: Time) -> Result<Seq<Matrix>, Memory>
    requires { c < length d.now.comps }
    ensures { IfOk result (λ ms. AreFull d.now c t ms) }
{
    let made = make_all(alloc, d, c, t)?;
    let mut ms = Seq::with_capacity(alloc, made.len())?;
    for m in &made {
        match m {
            Some(m) => ms.push(*m)?,
            None => unreachable!(),
        }
    }
    Ok(ms)
}

/// The table with every entry made.
fn make_all(alloc: Global, d: &Linked, c: u32, t: Time) -> Result<Vec<Option<Matrix>>, Memory>
    requires { c < length d.now.comps }
    ensures full { IfOk result (λ made. AreFullIfMade d.now c t made.items) }
    ensures made { IfOk result (λ made.
        (l : ℕ) → l < length made.items → IsMade made.items (Some l)) }
{
    let n = layer_count(d, c);
    let mut made = vec![in alloc; None; n as usize]?;
    for l in 0..n {
        make_down_to(alloc, d, c, l, t, &mut made)?;
    }
    Ok(made)
}

/// The number of layers of composition `c`.
fn layer_count(d: &Linked, c: u32) -> u32
    requires { c < length d.now.comps }
    ensures { result ≡ length (layers_of d.now c) }
{
    d.doc().comps.items()[c as usize].layers.items().len() as u32
}

/// Makes the entries of layer `l` and of those of its ancestors that are not made, from the last ancestor down.
fn make_down_to(
    alloc: Global,
    d: &Linked,
    c: u32,
    l: u32,
    t: Time,
    made: &mut [Option<Matrix>],
) -> Result<(), Memory>
    requires comp { c < length d.now.comps }
    requires layer { l < length (layers_of d.now c) }
    requires full { AreFullIfMade d.now c t made.old }
    ensures full { AreFullIfMade d.now c t made.new }
    ensures made { OnOk result (IsMade made.new (Some l)) }
    ensures kept { (k : ℕ) → IsMade made.old (Some k) → IsMade made.new (Some k) }
{
    let mut left = climb(alloc, d, c, l, made)?;
    while let Some(k) = left.pop() {
        let m = full_below(d, c, k, t, made);
        made[k as usize] = Some(m);
    }
    Ok(())
}

/// Layer `l` and its ancestors up to the first that is made, which is not among them.
fn climb(
    alloc: Global,
    d: &Linked,
    c: u32,
    l: u32,
    made: &[Option<Matrix>],
) -> Result<Seq<u32>, Memory>
    requires comp { c < length d.now.comps }
    requires layer { l < length (layers_of d.now c) }
    requires count { length made.now ≡ length (layers_of d.now c) }
    ensures within { IfOk result (λ left. All (λ k. k < length (layers_of d.now c)) left) }
    ensures left { IfOk result (λ left.
        (above : Option ℕ) × IsLeft (layers_of d.now c) made.now l above (reverse left)) }
{
    let mut left = Seq::new(alloc);
    let mut at = Some(l);
    while let Some(k) = not_made(made, at) {
        left.push(k)?;
        at = d.parent_of(c, k);
    }
    Ok(left)
}

/// The layer `at`, if there is one and its entry is not made.
fn not_made(made: &[Option<Matrix>], at: Option<u32>) -> Option<u32>
    requires { IfSome at (λ k. k < length made.now) }
    ensures some { IfSome result (λ k. at ≡ Some k) }
    ensures none { IfNone result (IsMade made.now at) }
{
    match at {
        Some(k) if made[k as usize].is_none() => Some(k),
        _ => None,
    }
}

/// The full matrix of layer `l`, whose parent's is made.
fn full_below(d: &Linked, c: u32, l: u32, t: Time, made: &[Option<Matrix>]) -> Matrix
    requires comp { c < length d.now.comps }
    requires layer { l < length (layers_of d.now c) }
    requires full { AreFullIfMade d.now c t made.now }
    requires parent { IsMade made.now (parent_of (layers_of d.now c) l) }
    ensures { full_matrix d.now c l t ≡ Some result }
{
    let own = own_at(d, c, l, t);
    match d.parent_of(c, l) {
        None => own,
        Some(k) => match entry(made, k) {
            Some(m) => then(own, m),
            None => unreachable!(),
        },
    }
}

/// The entry of layer `l`.
fn entry(made: &[Option<Matrix>], l: u32) -> Option<Matrix>
    requires { l < length made.now }
    ensures { result ≡ slice_index_or made.now l None }
{
    made[l as usize]
}

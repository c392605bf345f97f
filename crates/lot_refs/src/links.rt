//! Chains of links: each place of a list leads to another place, or nowhere.

ghost use Rattle.std.specs.Prelude.{◌≡◌, ◌<◌, ◌≤◌, ℕ, map, length, IfOk, slice_index_or, false};
ghost use Rattle.std.specs.List.{list_any};
ghost use Rattle.lot_refs.specs.Links.{next, CirclesAre, leads_to, IsJump};

use lot_types::Memory;
use std::alloc::Global;

/// Which places lie on a circle: for each, whether its chain comes back to it. The time is that of the links, times the
/// logarithm of their number.
pub fn circles(alloc: Global, links: &[Option<u32>]) -> Result<Vec<bool>, Memory>
    requires { length links.now ≤ 65536 }
    ensures { IfOk result (λ marks. CirclesAre marks.items links.now (length links.now)) }
{
    let far = jump(alloc, links)?;
    let marks = mark(alloc, &far)?;
    Ok(marks)
}

/// Where more steps lead than there are links. What is still reached then lies on a circle.
fn jump(alloc: Global, links: &[Option<u32>]) -> Result<Vec<Option<u32>>, Memory>
    requires { length links.now ≤ 65536 }
    ensures far { IfOk result (λ far.
        (m : ℕ) × (length links.now < m) × IsJump links.now m far.items) }
    ensures len { IfOk result (λ far. length far.items ≡ length links.now) }
{
    let mut far = Vec::from_slice(alloc, links)?;
    let mut steps: usize = 1;
    while steps <= links.len() {
        far = double(alloc, &far)?;
        steps *= 2;
    }
    Ok(far)
}

/// Where twice as many steps lead.
fn double(alloc: Global, links: &[Option<u32>]) -> Result<Vec<Option<u32>>, Memory>
    ensures { IfOk result (λ made. made.items ≡ map (next links.now) links.now) }
{
    let mut made = Vec::with_capacity(alloc, links.len())?;
    for at in links {
        made.push(follow(links, *at))?;
    }
    Ok(made)
}

/// Where one step leads.
fn follow(links: &[Option<u32>], at: Option<u32>) -> Option<u32>
    ensures { result ≡ next links.now at }
{
    match at {
        Some(l) => match links.get(l as usize) {
            Some(k) => *k,
            None => None,
        },
        None => None,
    }
}

/// Marks each place that a link leads to.
fn mark(alloc: Global, links: &[Option<u32>]) -> Result<Vec<bool>, Memory>
    ensures len { IfOk result (λ marks. length marks.items ≡ length links.now) }
    ensures marks { IfOk result (λ marks. (l : ℕ) → l < length links.now →
        slice_index_or marks.items l false ≡ list_any (leads_to l) links.now) }
{
    let mut marks = vec![in alloc; false; links.len()]?;
    for at in links {
        if let Some(l) = at {
            if (*l as usize) < marks.len() {
                marks[*l as usize] = true;
            }
        }
    }
    Ok(marks)
}

//! The numbers by which layers name each other.

ghost use Rattle.std.specs.Prelude.{◌≡◌, ◌≤◌, ℤ, length, IfOk};
ghost use Rattle.std.specs.BTreeMap.{get};
ghost use Rattle.std.specs.Option.{option_and_then};
ghost use Rattle.std.specs.Ordering.{int_cmp};
ghost use Rattle.lot_refs.specs.Parents.{find_layer};

use lot_types::{Fx, Layer, Memory};
use std::alloc::Global;
use std::collections::BTreeMap;

/// The first layer of each number, in millionths.
pub fn index_numbers(alloc: Global, layers: &[Layer]) -> Result<BTreeMap<i64, u32>, Memory>
    requires { length layers.now ≤ 65536 }
    ensures { IfOk result (λ index. (number : ℤ) →
        get int_cmp index number ≡ find_layer layers.now number) }
{
    let mut index = BTreeMap::new(alloc);
    let mut l = layers.len();
    while l > 0 {
        l -= 1;
        if let Some(ind) = layers[l].ind {
            index.insert(ind.get(), l as u32)?;
        }
    }
    Ok(index)
}

/// The layer that a number names, if there is a number.
pub fn find_named(index: &BTreeMap<i64, u32>, number: Option<Fx>) -> Option<u32>
    ensures { result ≡ option_and_then (λ n. get int_cmp index.now n) number }
{
    match number {
        Some(number) => find(index, number.get()),
        None => None,
    }
}

/// The layer of this number.
fn find(index: &BTreeMap<i64, u32>, number: i64) -> Option<u32>
    ensures { result ≡ get int_cmp index.now number }
{
    index.get(&number).copied()
}

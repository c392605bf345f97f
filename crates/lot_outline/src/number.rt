//! Sums, products and halves, limited to the range.
ghost use Rattle.std.specs.Prelude.{◌≡◌, ◌≤◌, ◌^◌, ◌*ℤ◌, pos, unsigned_abs};
ghost use Rattle.std.specs.Int.{int_min};
ghost use Rattle.lot_num.specs.Round.{product, rnd};
ghost use Rattle.lot_outline.specs.Number.{plus as plus_in, minus as minus_in, half as half_in};

use lot_geom::{exact_product, limited};
use lot_num::{mul_fx, rnd_div};
use lot_types::Fx;

/// The sum of two numbers.
#[tactic(auto, unfolding(crate::specs::Number::plus))]
pub(crate) fn plus(x: Fx, y: Fx) -> Fx
    ensures { result ≡ plus_in x y }
{
    limited(x.get() as i128 + y.get() as i128)
}

/// The difference of two numbers.
#[tactic(auto, unfolding(crate::specs::Number::minus))]
pub(crate) fn minus(x: Fx, y: Fx) -> Fx
    ensures { result ≡ minus_in x y }
{
    limited(x.get() as i128 - y.get() as i128)
}

/// The product of two numbers of millionths, in millionths.
pub(crate) fn times(x: Fx, y: Fx) -> Fx
    ensures { result ≡ product x y }
{
    match Fx::new(mul_fx(x.get(), y.get())) {
        Some(x) => x,
        None => unreachable!(),
    }
}

/// The product of two numbers of millionths, in millionths, not limited.
pub(crate) fn rounded_product(x: Fx, y: Fx) -> i128
    ensures value { result ≡ rnd (x *ℤ y) (pos (10 ^ 6)) }
    ensures small { unsigned_abs result ≤ 10 ^ 26 }
{
    rnd_div(exact_product(x, y), 1_000_000)
}

/// A hundredth, rounded.
pub(crate) fn hundredth(x: Fx) -> Fx
    ensures { result ≡ rnd x (pos 100) }
{
    limited(rnd_div(x.get() as i128, 100))
}

/// The half of a size, which counts by its magnitude.
#[tactic(auto, unfolding(crate::specs::Number::half))]
pub(crate) fn half(size: Fx) -> Fx
    ensures { result ≡ half_in size }
{
    limited(rnd_div(size.get().unsigned_abs() as i128, 2))
}

/// The smaller of two numbers.
pub(crate) fn smaller(x: Fx, y: Fx) -> Fx
    ensures { result ≡ int_min x y }
{
    if y.get() < x.get() { y } else { x }
}

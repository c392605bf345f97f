//! Numbers that are limited to the range, and products of two.

ghost use Rattle.std.specs.Prelude.{◌≡◌, ◌≤◌, ◌^◌, ◌+ℤ◌, ◌*ℤ◌, neg_ℤ, unsigned_abs};
ghost use Rattle.lot_num.specs.Round.{limit};

use lot_num::clamp_fx;
use lot_types::Fx;

/// The number of the range that is nearest to `x` millionths.
pub fn limited(x: i128) -> Fx
    ensures { result ≡ limit x }
{
    match Fx::new(clamp_fx(x)) {
        Some(x) => x,
        None => unreachable!(),
    }
}

/// Minus a number, which is in the range as the number is.
pub fn negated(x: Fx) -> Fx
    ensures { result ≡ neg_ℤ x }
{
    match Fx::new(-x.get()) {
        Some(x) => x,
        None => unreachable!(),
    }
}

/// The sum of two numbers, limited to the range.
pub(crate) fn sum(x: Fx, y: Fx) -> Fx
    ensures { result ≡ limit (x +ℤ y) }
{
    limited(x.get() as i128 + y.get() as i128)
}

/// The product of two numbers of millionths, in millionths of millionths: neither rounded nor limited.
pub fn exact_product(x: Fx, y: Fx) -> i128
    ensures value { result ≡ x *ℤ y }
    ensures small { unsigned_abs result ≤ 10 ^ 26 }
{
    x.get() as i128 * y.get() as i128
}

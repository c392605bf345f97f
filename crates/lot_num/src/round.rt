//! Rounding to the nearest whole number, and limiting a number to the range.

ghost use Rattle.std.specs.Prelude.{◌≡◌, ◌≢◌, pos, unsigned_abs, ◌^◌, ◌<◌, ◌≤◌};
ghost use Rattle.lot_num.specs.Round.{nearest, rnd, max_millionths, limit, product, IsNearest};

/// The greatest magnitude in range: ten million, in millionths.
pub(crate) const MAX_MILLIONTHS: i64 = 10_000_000_000_000;

/// The whole number nearest to `x / y`, and of two equally near ones the one with the greater magnitude: `5 / 2` gives
/// 3, and `-5 / 2` gives -3.
///
/// `y` is not 0, and both are whole numbers of any unit from -10^37 to 10^37.
pub fn rnd_div(x: i128, y: i128) -> i128
    requires nonzero { y ≢ pos 0 }
    requires x_small { unsigned_abs x ≤ 10 ^ 37 }
    requires y_small { unsigned_abs y ≤ 10 ^ 37 }
    ensures value { result ≡ rnd x y }
    ensures nearest { IsNearest x y result }
    ensures small { unsigned_abs result ≤ unsigned_abs x }
{
    rounded(x, y)
}

/// The number of the range from -10^13 to 10^13 that is nearest to `x`.
pub fn clamp_fx(x: i128) -> i64
    ensures { result ≡ limit x }
{
    let max = MAX_MILLIONTHS as i128;
    x.clamp(-max, max) as i64
}

/// The product of two numbers of millionths, in millionths: rounded as [`rnd_div`] rounds, and limited to the range.
pub fn mul_fx(a: i64, b: i64) -> i64
    ensures { result ≡ product a b }
{
    clamp_fx(rounded(a as i128 * b as i128, 1_000_000))
}

// `rnd_div` for every `x` but the least `i128`, whose magnitude is no `i128`.
fn rounded(x: i128, y: i128) -> i128
    requires nonzero { y ≢ pos 0 }
    requires not_least { unsigned_abs x < 2 ^ 127 }
    ensures value { result ≡ rnd x y }
    ensures small { unsigned_abs result ≤ unsigned_abs x }
{
    let size = nearest_u128(x.unsigned_abs(), y.unsigned_abs()) as i128;
    if (x < 0) == (y < 0) { size } else { -size }
}

// `rnd_div` of a number in range, in one machine word.
pub(crate) fn rounded_to(v: i64, unit: u64) -> i64
    requires positive { 0 < unit }
    requires in_range { unsigned_abs v ≤ max_millionths }
    ensures value { result ≡ rnd v (pos unit) }
    ensures small { unsigned_abs result ≤ unsigned_abs v }
{
    let size = nearest_u64(v.unsigned_abs(), unit) as i64;
    if v < 0 { -size } else { size }
}

pub(crate) fn nearest_u128(n: u128, d: u128) -> u128
    requires { 0 < d }
    ensures value { result ≡ nearest n d }
    ensures small { result ≤ n }
{
    let whole = n / d;
    let rest = n - whole * d;
    if rest >= d - rest { whole + 1 } else { whole }
}

fn nearest_u64(size: u64, unit: u64) -> u64
    requires { 0 < unit }
    ensures value { result ≡ nearest size unit }
    ensures small { result ≤ size }
{
    let whole = size / unit;
    let rest = size % unit;
    if rest >= unit - rest {
        whole + 1
    } else {
        whole
    }
}

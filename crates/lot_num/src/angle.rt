//! The sine, the cosine and the tangent of angles.
//!
//! Angles are millionths of a degree, and results are millionths. They are those of exact polynomials, so that each
//! machine gives the same digits.

ghost use Rattle.std.specs.Prelude.{◌≡◌, ◌≤◌, ◌<◌, ◌*◌, ◌^◌, ◌*ℤ◌, pos, unsigned_abs};
ghost use Rattle.lot_num.specs.Angle.{sine, cosine, tangent, tangent_of as tangent_in, sine_near_zero as sine_in, cosine_near_zero as cosine_in, sine_factor as sine_factor_in, cosine_factor as cosine_factor_in, squared as squared_in, one_less as one_less_in, unit, quarter_of, radians_of, radians as radians_in};
ghost use Rattle.lot_num.specs.Round.{rnd, max_millionths};

use crate::round::{MAX_MILLIONTHS, clamp_fx, nearest_u128, rnd_div, rounded_to};

/// A turn, in millionths of a degree.
const FULL_TURN: i64 = 360_000_000;

const QUARTER_TURN: u32 = 90_000_000;

/// One, in the parts in which the series are taken.
const UNIT: u128 = 1_000_000_000_000;

/// An angle as a number of quarter turns and what is left.
#[derive(Clone, Copy)]
struct Angle {
    /// The number of the quarter, from 0 to 3.
    quarter: u32,
    /// From -45 to 45 degrees, in parts of a radian of 10^-12.
    radians: i64,
}

/// The sine of an angle in millionths of a degree, in millionths: from -10^6 to 10^6.
#[tactic(auto, unfolding(crate::specs::Angle::sine))]
pub fn sin_fx(a: i64) -> i64
    ensures value { result ≡ sine a }
    ensures small { unsigned_abs result ≤ 10 ^ 6 }
{
    let angle = Angle::of(a);
    match angle.quarter {
        0 => sine_near_zero(angle.radians),
        1 => cosine_near_zero(angle.radians),
        2 => -sine_near_zero(angle.radians),
        _ => -cosine_near_zero(angle.radians),
    }
}

/// The cosine of an angle in millionths of a degree, in millionths: from -10^6 to 10^6.
#[tactic(auto, unfolding(crate::specs::Angle::cosine))]
pub fn cos_fx(a: i64) -> i64
    ensures value { result ≡ cosine a }
    ensures small { unsigned_abs result ≤ 10 ^ 6 }
{
    let angle = Angle::of(a);
    match angle.quarter {
        0 => cosine_near_zero(angle.radians),
        1 => -sine_near_zero(angle.radians),
        2 => -cosine_near_zero(angle.radians),
        _ => sine_near_zero(angle.radians),
    }
}

/// The tangent of an angle in millionths of a degree, in millionths and limited to the range. Where the cosine is 0 it
/// is 10^13 with the sign of the sine: that of 90 degrees is 10^13, and that of 270 degrees is -10^13.
#[tactic(auto, unfolding(crate::specs::Angle::tangent))]
pub fn tan_fx(a: i64) -> i64
    ensures value { result ≡ tangent a }
    ensures small { unsigned_abs result ≤ max_millionths }
{
    tangent_of(sin_fx(a), cos_fx(a))
}

fn tangent_of(sine: i64, cosine: i64) -> i64
    requires sine_small { unsigned_abs sine ≤ 10 ^ 6 }
    requires cosine_small { unsigned_abs cosine ≤ 10 ^ 6 }
    ensures value { result ≡ tangent_in sine cosine }
    ensures small { unsigned_abs result ≤ max_millionths }
{
    if cosine == 0 {
        return if sine < 0 {
            -MAX_MILLIONTHS
        } else {
            MAX_MILLIONTHS
        };
    }
    clamp_fx(rnd_div(sine as i128 * 1_000_000, cosine as i128))
}

impl Angle {
    /// The parts of an angle in millionths of a degree.
    fn of(a: i64) -> Angle
        ensures quarter { result.quarter ≡ quarter_of a }
        ensures four { result.quarter < 4 }
        ensures radians { result.radians ≡ radians_of a }
        ensures small { unsigned_abs result.radians ≤ unit }
    {
        let within = a.rem_euclid(FULL_TURN) as u32;
        let quarter = (within + QUARTER_TURN / 2) / QUARTER_TURN;
        Angle {
            quarter: quarter % 4,
            radians: radians(within as i64 - (quarter * QUARTER_TURN) as i64),
        }
    }
}

// An angle from -45 to 45 degrees, in radians.
fn radians(d: i64) -> i64
    requires { unsigned_abs d ≤ 45 * 10 ^ 6 }
    ensures value { result ≡ radians_in d }
    ensures small { unsigned_abs result ≤ unit }
{
    scaled(d, 17_453_292_519_943_295)
}

// `x * m / 10^12`, rounded as `rnd_div` rounds.
fn scaled(x: i64, m: u128) -> i64
    requires { unsigned_abs x * m ≤ unit * unit }
    ensures value { result ≡ rnd (x *ℤ pos m) (pos unit) }
    ensures small { unsigned_abs result ≤ unit }
{
    let size = nearest_u128(x.unsigned_abs() as u128 * m, UNIT) as i64;
    if x < 0 { -size } else { size }
}

// The series. Each is for an angle `y` in radians.

#[tactic(auto, unfolding(crate::specs::Angle::sine_near_zero))]
fn sine_near_zero(y: i64) -> i64
    requires { unsigned_abs y ≤ unit }
    ensures value { result ≡ sine_in y }
    ensures small { unsigned_abs result ≤ 10 ^ 6 }
{
    rounded_to(scaled(y, sine_factor(squared(y))), 1_000_000)
}

#[tactic(auto, unfolding(crate::specs::Angle::cosine_near_zero))]
fn cosine_near_zero(y: i64) -> i64
    requires { unsigned_abs y ≤ unit }
    ensures value { result ≡ cosine_in y }
    ensures small { unsigned_abs result ≤ 10 ^ 6 }
{
    rounded_to(cosine_factor(squared(y)) as i64, 1_000_000)
}

fn squared(y: i64) -> u128
    requires { unsigned_abs y ≤ unit }
    ensures value { pos result ≡ squared_in y }
    ensures small { result ≤ unit }
{
    let size = y.unsigned_abs() as u128;
    nearest_u128(size * size, UNIT)
}

fn sine_factor(z: u128) -> u128
    requires { z ≤ unit }
    ensures value { pos result ≡ sine_factor_in (pos z) }
    ensures small { result ≤ unit }
{
    let t = one_less(z, 72);
    let t = one_less(z * t, 42 * UNIT);
    let t = one_less(z * t, 20 * UNIT);
    one_less(z * t, 6 * UNIT)
}

fn cosine_factor(z: u128) -> u128
    requires { z ≤ unit }
    ensures value { pos result ≡ cosine_factor_in (pos z) }
    ensures small { result ≤ unit }
{
    let t = one_less(z, 90);
    let t = one_less(z * t, 56 * UNIT);
    let t = one_less(z * t, 30 * UNIT);
    let t = one_less(z * t, 12 * UNIT);
    one_less(z * t, 2 * UNIT)
}

// One less `x / n`, in the parts of the series.
fn one_less(x: u128, n: u128) -> u128
    requires positive { 0 < n }
    requires small { x ≤ unit * n }
    ensures value { pos result ≡ one_less_in (pos x) n }
    ensures small { result ≤ unit }
{
    UNIT - nearest_u128(x, n)
}

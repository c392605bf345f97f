//! Easing between two keyframes.

ghost use Rattle.std.specs.Prelude.{◌≡◌, ◌↔◌, ◌+◌, ◌-◌, ◌*◌, ◌^◌, ◌≤◌, ◌*ℤ◌, pos, unsigned_abs, IsTrue};
ghost use Rattle.lot_num.specs.Easing.{IsHandle, IsPart, IsLeast, Reaches, curve, height, between, grid_steps, square, cube};
ghost use Rattle.lot_num.specs.Round.{max_millionths, rnd};

use crate::round::{clamp_fx, rnd_div};
use std::marker::Model;

/// The number of steps of the grid at which a curve is taken.
const GRID_STEPS: u32 = 65_536;

/// The cube of the number of steps.
const GRID_STEPS_CUBED: u128 = 281_474_976_710_656;

/// One, in millionths.
const ONE: u128 = 1_000_000;

/// A handle of an easing curve: a control point of a cubic curve from (0, 0) to (1, 1), whose x is the part of the time
/// between two keyframes and whose y is the part of the change of the value.
#[derive(Clone, Copy)]
pub struct Handle {
    /// From 0 to 10^6, in millionths.
    pub x: i64,
    /// From -10^8 to 10^8, in millionths.
    pub y: i64,
}

impl Model for Handle {
    ghost use Rattle.lot_num.specs.Easing.{ControlPoint, IsHandle};

    ghost Value = { ControlPoint };

    ghost view = { λ h. record { x = h.x; y = h.y } };

    ghost invariant = { λ h. IsHandle h.x h.y };

    ghost inverse = { λ p. record { x = p.x; y = p.y } };
}

/// A place of an easing curve.
#[derive(Clone, Copy)]
pub struct Grid {
    /// The step of the grid, from 0 to 65,536.
    pub g: u32,
    /// The part of the change of the value, from -10^8 to 10^8, in millionths. It may be below 0 or above one million.
    pub fraction: i64,
}

/// The place of the curve with the handles `o` and `i` at the part `num / den` of the time: the least step of the grid
/// whose x is at least `num / den`, and its y.
///
/// `num` is from 0 to `den`, and `den` is above 0 and at most 2 * 10^13.
pub fn ease(o: Handle, i: Handle, num: i64, den: i64) -> Grid
    requires part { IsPart num den }
    ensures least { IsLeast o.x i.x num den result.g }
    ensures fraction { result.fraction ≡ height o.y i.y result.g }
    ensures small { unsigned_abs result.fraction ≤ 10 ^ 8 }
{
    let g = least_step(
        o.x.unsigned_abs(),
        i.x.unsigned_abs(),
        num.unsigned_abs(),
        den.unsigned_abs(),
    );
    let fraction = height_at(o.y, i.y, g);
    Grid { g, fraction }
}

/// The number at the part `num / den` of the line from `s0` to `s1`, limited to the range.
///
/// `s0` and `s1` are in range, `num` is from 0 to `den`, and `den` is above 0 and at most 2 * 10^13.
pub fn ease_linear(s0: i64, s1: i64, num: i64, den: i64) -> i64
    requires from { unsigned_abs s0 ≤ max_millionths }
    requires to { unsigned_abs s1 ≤ max_millionths }
    requires part { IsPart num den }
    ensures { result ≡ between s0 s1 num den }
{
    clamp_fx(s0 as i128 + part_of(s1 - s0, num, den))
}

// The part `num / den` of a change.
fn part_of(change: i64, num: i64, den: i64) -> i128
    requires change_small { unsigned_abs change ≤ 2 * 10 ^ 13 }
    requires part { IsPart num den }
    ensures value { result ≡ rnd (change *ℤ num) den }
    ensures small { unsigned_abs result ≤ 4 * 10 ^ 26 }
{
    rnd_div(change as i128 * num as i128, den as i128)
}

// By halving: every step below `low` is before `num / den`, and `high` is not.
fn least_step(a: u64, b: u64, num: u64, den: u64) -> u32
    requires a_in { a ≤ 10 ^ 6 }
    requires b_in { b ≤ 10 ^ 6 }
    requires part { num ≤ den }
    requires short { den ≤ 2 * 10 ^ 13 }
    ensures { IsLeast (pos a) (pos b) (pos num) (pos den) result }
{
    let mut low = 0;
    let mut high = GRID_STEPS;
    while low < high {
        let middle = (low + high) / 2;
        if reaches(a, b, num, den, middle) {
            high = middle;
        } else {
            low = middle + 1;
        }
    }
    low
}

// Whether the curve is at `num / den` or after it at a step.
fn reaches(a: u64, b: u64, num: u64, den: u64, g: u32) -> bool
    requires a_in { a ≤ 10 ^ 6 }
    requires b_in { b ≤ 10 ^ 6 }
    requires num_small { num ≤ 2 * 10 ^ 13 }
    requires den_small { den ≤ 2 * 10 ^ 13 }
    requires within { g ≤ grid_steps }
    ensures { IsTrue result ↔ Reaches (pos a) (pos b) (pos num) (pos den) g }
{
    let (p, q, r) = weights(g);
    let x = a as u128 * p as u128 + b as u128 * q as u128 + ONE * r as u128;
    x * den as u128 >= ONE * GRID_STEPS_CUBED * num as u128
}

// The y coordinate of the curve at a step, in millionths.
fn height_at(a: i64, b: i64, g: u32) -> i64
    requires a_small { unsigned_abs a ≤ 10 ^ 8 }
    requires b_small { unsigned_abs b ≤ 10 ^ 8 }
    requires within { g ≤ grid_steps }
    ensures value { result ≡ height a b g }
    ensures small { unsigned_abs result ≤ 10 ^ 8 }
{
    rnd_div(curve_at(a, b, g), GRID_STEPS_CUBED as i128) as i64
}

fn curve_at(a: i64, b: i64, g: u32) -> i128
    requires a_small { unsigned_abs a ≤ 10 ^ 8 }
    requires b_small { unsigned_abs b ≤ 10 ^ 8 }
    requires within { g ≤ grid_steps }
    ensures value { result ≡ curve a b g }
    ensures small { unsigned_abs result ≤ 10 ^ 8 * cube grid_steps }
{
    let (p, q, r) = weights(g);
    times(a, p) + times(b, q) + times(ONE as i64, r)
}

// The weights of the control points and of the end at a step, times the cube of the number of steps.
fn weights(g: u32) -> (u64, u64, u64)
    requires { g ≤ grid_steps }
    ensures first { result.0 ≡ 3 * g * square (grid_steps - g) }
    ensures second { result.1 ≡ 3 * square g * (grid_steps - g) }
    ensures end { result.2 ≡ cube g }
    ensures whole { result.0 + result.1 + result.2 ≤ cube grid_steps }
{
    let h = (GRID_STEPS - g) as u64;
    let g = g as u64;
    (3 * g * h * h, 3 * g * g * h, g * g * g)
}

fn times(x: i64, weight: u64) -> i128
    requires { unsigned_abs x ≤ 10 ^ 8 }
    ensures value { result ≡ x *ℤ pos weight }
    ensures small { unsigned_abs result ≤ 10 ^ 8 * weight }
{
    x as i128 * weight as i128
}

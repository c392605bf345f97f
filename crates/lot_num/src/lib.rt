//! Exact arithmetic on numbers of millionths.
//!
//! A number is a whole number of millionths: of a pixel, a frame, a degree, a per cent, or of one. `1_500_000` is one
//! and a half. A number in range is from -10^13 to 10^13, ten million either way. No call refuses and none takes
//! memory. The rules are this project's own.
#![tactic(auto)]

mod angle;
mod digits;
mod easing;
mod root;
mod round;

pub use angle::{cos_fx, sin_fx, tan_fx};
pub use digits::print_fx;
pub use easing::{Grid, Handle, ease, ease_linear};
pub use root::isqrt;
pub use round::{clamp_fx, mul_fx, rnd_div};

//! Intervals of a run.

/// What is between two fractions of a run, in millionths, or between two of its lengths, in millionths of a pixel.
#[derive(Clone, Copy)]
pub(crate) struct Interval {
    pub from: u128,
    pub to: u128,
}

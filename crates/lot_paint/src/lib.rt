//! The paints of fills and strokes at a time.
//!
//! Numbers are millionths: of a pixel, or of one; times are millionths of a frame. The x axis points to the right and
//! the y axis down.
#![tactic(auto)]

mod brush;
mod color;
mod dashes;
mod gradient;
mod ink;
mod interpolated;
mod list_stop;
mod mapped;
mod merged;
mod opacity;
mod paint;

pub use paint::paint_of;

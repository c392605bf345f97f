//! The contours of shapes at a time.
//!
//! Numbers are millionths, of a pixel or of a degree, and are limited to the range from -10^13 to 10^13. The x axis
//! points to the right and the y axis down, so that a positive angle turns clockwise.
#![tactic(auto)]

mod arc;
mod closed;
mod ellipse;
mod leaf;
mod number;
mod polystar;
mod rectangle;
mod reversed;
mod sides;

pub use leaf::contours;

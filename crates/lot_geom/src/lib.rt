//! Affine maps, cubic curves, and the contours of paths.
//!
//! Numbers are millionths, of a pixel or of one, and are limited to the range from -10^13 to 10^13. The x axis points
//! to the right and the y axis down, so that a positive angle turns clockwise. Only [`path_contours`] and [`lengths`]
//! take memory.
#![tactic(auto)]

mod arc_length;
mod chord;
mod cubic;
mod curve_length;
mod matrix;
mod number;
mod offset;
mod part;
mod path;

pub use arc_length::along;
pub use cubic::{Cubic, point_at, split};
pub use curve_length::{curve_of, lengths};
pub use matrix::{apply, identity, of_transform_values, rotation, then};
pub use number::{exact_product, limited, negated};
pub use offset::moved;
pub use part::part_between;
pub use path::path_contours;

//! Layers of compositions, evaluated at a time.
//!
//! Numbers are millionths: of a pixel, or of one; times are millionths of a frame. The x axis points to the right and
//! the y axis down.
#![tactic(auto)]

mod chain;
mod evaluated;
mod full_matrix;
mod full_table;
mod shape;
mod solid;

pub use evaluated::{piece, piece_with};
pub use full_table::full_matrices;

//! The value of a property of a document at a time, and the map and the opacity of a transform.
//!
//! Numbers are millionths: of a pixel, a degree, a per cent, or of one; times are millionths of a frame. Only
//! paths and gradients take memory.
#![tactic(auto)]

mod bezier;
mod color;
mod evaluator;
mod found;
mod gradient;
mod part;
mod position;
mod progress;
mod scalar;
mod transform;
mod vector;

pub use bezier::value_bezier;
pub use color::value_color;
pub use evaluator::Evaluator;
pub use gradient::value_gradient;
pub use position::value_position;
pub use scalar::value_scalar;
pub use transform::{matrix_at, opacity_at};
pub use vector::value_vector;

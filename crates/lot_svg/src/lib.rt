//! The SVG 1.1 text of a finished frame, written while the layers are walked.
//!
//! A [`Writer`] keeps the text and the number of the next identifier. Its calls follow the frame: `begin`, for each
//! layer `open_layer`, `paint` for each of its paints and `close_layer`, and `end`. A gradient is defined right before
//! the path that refers to it. The layout of the text is this project's own: after each `>` of a tag comes one line
//! feed, some attributes are left out where they have their default value, and numbers have no more decimals than they
//! need.
#![tactic(auto)]

mod element;
mod fill;
mod gradient;
mod head;
mod identifier;
mod laws;
mod layer;
mod number;
mod paint;
mod path_data;
mod stroke;
mod writer;

pub use laws::{calls_give_the_text, identifiers_open_in_order};
pub use writer::Writer;

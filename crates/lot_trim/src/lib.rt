//! Trim paths: what is left of outlines between two fractions of their length.
//!
//! Lengths are in millionths of a pixel, in the space of the outlines, and are measured by 64 chords a segment. Want of
//! memory is the one refusal.
#![tactic(auto)]

mod cut;
mod interval;
mod outline;
mod placed_contour;
mod run;
mod trim;

pub use cut::TrimCut;
pub use trim::{trim_parallel, trim_sequential};

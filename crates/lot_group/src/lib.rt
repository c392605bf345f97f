//! What the items of a shape layer give at a time: the outlines of its leaves, and what each style paints.
//!
//! Numbers are millionths, of a pixel or of one. The x axis points to the right and the y axis down. Products of
//! matrices are taken from the left: the first factor maps first.
#![tactic(auto)]

mod collected;
mod group;
mod pass;
mod place;
mod product;
mod trim;

pub use collected::collect;
pub use place::item_at;

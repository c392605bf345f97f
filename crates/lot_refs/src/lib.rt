//! The references of a document. [`check_refs`] finds the layer that each layer names as its parent, or refuses the
//! first fault: a layer that is not there, or a circle. It lists the layers that are drawn by themselves. Its answer is
//! a [`Linked`] document, which is all that an evaluation needs; each look-up in it takes constant time and no memory.
//!
//! A reference is kept as a link from a layer to a layer, in one table for each composition. Chains and circles of
//! links are the subject of `links.rt` alone, which knows nothing of layers.
#![tactic(auto)]

mod drawn;
mod laws;
mod linked;
mod links;
mod numbers;
mod parent_faults;
mod parents;
mod ref_fault;

pub use laws::{a_circle_comes_back, a_faultless_chain_ends};
pub use linked::{Linked, check_refs};

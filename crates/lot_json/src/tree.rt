//! What a JSON text is read into: the tree, its numbers, and the paths in it.

mod json;
mod number;
mod pointer;

pub use json::{Json, JsonItems, JsonMembers};
pub use number::Number;
pub use pointer::{Pointer, Step};

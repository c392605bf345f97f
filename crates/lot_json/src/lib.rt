//! JSON texts by RFC 8259: read from pieces of any lengths into a tree, with the exact offset of a fault.
//!
//! ```text
//! let tree = parse(alloc, bytes)?;                 // all bytes at once
//!
//! let mut decoder = Decoder::new(alloc)?;          // or piece by piece
//! decoder.feed(piece)?;
//! let tree = decoder.finish()?;
//! ```
//!
//! The profile is this project's own: UTF-8, perhaps after a byte order mark, with at most 128 arrays and objects open
//! at once, and no escape of a surrogate that is not a whole pair. A number is kept in millionths.
#![tactic(auto)]

mod decoder;
mod laws;
mod machine;
mod parser;
mod progress;
mod refusal;
pub mod token;
mod tokens;
mod tree;

pub use decoder::Decoder;
pub use laws::{a_prefix_is_viable, a_text_is_viable, has_one_tree};
pub use parser::parse;
pub use refusal::JsonRefusal;
pub use tree::{Json, JsonItems, JsonMembers, Number, Pointer, Step};

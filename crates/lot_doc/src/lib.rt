//! The reader of Lottie documents: from the tree of a JSON text to a document of the player.
//!
//! [`read_doc`] reads the members by the tables of the whole animation, of its layers, of their transforms and of
//! the items that they show, in the order of the rows, which is not the order of the text.
#![tactic(auto)]

mod asset;
mod color;
mod dash;
mod document;
mod ellipse;
mod faultless;
mod feature;
mod fill;
mod gradient;
mod item;
mod item_head;
mod item_type;
mod layer;
mod layer_type;
mod path;
mod polystar;
mod rectangle;
mod root;
mod running_time;
mod stroke;
mod trim;

pub use document::read_doc;
pub use faultless::faultless_document_has_value;

//! What the reader of documents answers.

use crate::{Doc, Duplicate, Memory, Seq, Use};

/// A document whose references are not yet checked.
#[derive(Drop)]
pub struct Read {
    pub doc: Doc,
    /// The uses of slots, in the order in which the table of members visits them.
    pub uses: Seq<Use>,
}

impl Duplicate for Read {
    fn copy(&self) -> Result<Read, Memory> {
        Ok(Read {
            doc: self.doc.copy()?,
            uses: self.uses.copy()?,
        })
    }
}

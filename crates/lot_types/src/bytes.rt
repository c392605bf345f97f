//! Lists of bytes.

ghost use Rattle.std.specs.Prelude.{◌≡◌, [], ◌∷◌, ◌++◌, OnOk, OnErr};

use crate::{Duplicate, Memory};
use std::alloc::Global;
use std::marker::Model;

/// A list of bytes that keeps its allocator. Contracts see it as the list of its bytes.
#[derive(Drop)]
pub struct Bytes {
    bytes: Vec<u8>,
}

impl Model for Bytes {
    ghost use Rattle.std.specs.Prelude.{List, ℕ};

    ghost Value = { List ℕ };

    ghost view = { λ b. b.bytes.items };
}

impl Bytes {
    /// The empty list. It takes no memory.
    pub fn new(alloc: Global) -> Bytes
        ensures { result ≡ [] }
    {
        Bytes {
            bytes: Vec::new(alloc),
        }
    }

    /// Puts bytes at the end. Want of memory is the one refusal; the list is then unchanged.
    pub fn append(&mut self, b: &[u8]) -> Result<(), Memory>
        ensures ok { OnOk result (self.new ≡ self.old ++ b.now) }
        ensures err { OnErr result (self.new ≡ self.old) }
    {
        self.bytes.extend_from_slice(b)?;
        Ok(())
    }

    /// The bytes in order.
    pub fn as_slice(&self) -> &[u8]
        ensures { result.now ≡ self.now }
    {
        self.bytes.as_slice()
    }
}

impl Duplicate for Bytes {
    fn copy(&self) -> Result<Bytes, Memory> {
        let mut made = Bytes::new(*self.bytes.allocator());
        made.append(self.as_slice())?;
        Ok(made)
    }
}

//! Texts.

ghost use Rattle.std.specs.Prelude.{◌≡◌, [], ◌∷◌, ◌++◌, IfOk, OnOk, OnErr, encode_utf8};

use crate::{Duplicate, Memory};
use std::alloc::Global;
use std::marker::Model;

/// How many bytes a full text reserves where a character is put at its end.
const MIN_GROWTH_BYTES: usize = 24;

/// A text in UTF-8 that keeps its allocator. Contracts see it as the list of its bytes.
#[derive(Debug, Drop)]
pub struct Text {
    text: String,
}

impl Model for Text {
    ghost use Rattle.std.specs.Prelude.{List, ℕ, string_bytes};

    ghost Value = { List ℕ };

    ghost view = { λ t. string_bytes t.text };
}

impl Text {
    /// The empty text. It takes no memory.
    pub fn new(alloc: Global) -> Text
        ensures { result ≡ [] }
    {
        Text {
            text: String::new(alloc),
        }
    }

    /// A copy of a text. Want of memory is the one refusal.
    pub fn of(alloc: Global, s: &str) -> Result<Text, Memory>
        ensures { IfOk result (λ made. made ≡ s.now) }
    {
        let text = String::from_str(alloc, s)?;
        Ok(Text { text })
    }

    /// Puts a character at the end. Want of memory is the one refusal; the text is then unchanged.
    pub fn push(&mut self, c: char) -> Result<(), Memory>
        ensures ok { OnOk result (self.new ≡ self.old ++ encode_utf8 c) }
        ensures err { OnErr result (self.new ≡ self.old) }
    {
        if self.text.len() == self.text.capacity() {
            self.text.reserve(MIN_GROWTH_BYTES)?;
        }
        self.text.push(c)?;
        Ok(())
    }

    /// Puts a text at the end. Want of memory is the one refusal; the text is then unchanged.
    pub fn append(&mut self, s: &str) -> Result<(), Memory>
        ensures ok { OnOk result (self.new ≡ self.old ++ s.now) }
        ensures err { OnErr result (self.new ≡ self.old) }
    {
        self.text.push_str(s)?;
        Ok(())
    }

    /// Removes all characters, and keeps the memory that they took.
    pub fn clear(&mut self)
        ensures { self.new ≡ [] }
    {
        self.text.clear();
    }

    /// The allocator of its bytes.
    pub fn allocator(&self) -> Global {
        *self.text.allocator()
    }

    /// The text.
    pub fn as_str(&self) -> &str
        ensures { result.now ≡ self.now }
    {
        self.text.as_str()
    }
}

impl Duplicate for Text {
    fn copy(&self) -> Result<Text, Memory> {
        let text = self.text.clone()?;
        Ok(Text { text })
    }
}

//! Names.

ghost use Rattle.std.specs.Prelude.{◌≡◌, IfOk};

use crate::{Duplicate, Memory};
use std::alloc::Global;
use std::marker::Model;

/// The name of an asset or a slot: a text in UTF-8, compared byte by byte. Contracts see it as the list of its bytes.
#[derive(Drop)]
pub struct Name {
    text: String,
}

impl Model for Name {
    ghost use Rattle.std.specs.Prelude.{List, ℕ, string_bytes};

    ghost Value = { List ℕ };

    ghost view = { λ n. string_bytes n.text };
}

impl Name {
    /// A copy of a name. Want of memory is the one refusal.
    pub fn of(alloc: Global, s: &str) -> Result<Name, Memory>
        ensures { IfOk result (λ made. made ≡ s.now) }
    {
        let text = String::from_str(alloc, s)?;
        Ok(Name { text })
    }

    /// The name.
    pub fn as_str(&self) -> &str
        ensures { result.now ≡ self.now }
    {
        self.text.as_str()
    }
}

impl Duplicate for Name {
    fn copy(&self) -> Result<Name, Memory> {
        let text = self.text.clone()?;
        Ok(Name { text })
    }
}

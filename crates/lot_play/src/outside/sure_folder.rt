//! A folder in memory that never fails.
ghost use Rattle.std.specs.Prelude.{◌≡◌, ◌≤◌, [], ◌∷◌, ◌++◌, length, OnOk, OnErr, IsSome};
ghost use Rattle.std.specs.Option.{option_copied};
ghost use Rattle.lot_play.specs.Folder.{ReadsInto, content_of};

use crate::outside::Folder;
use lot_types::{Bytes, Failed, Memory, Seq, Text};
use std::alloc::Global;
use std::marker::Model;

/// A folder in memory that serves exactly the names that it contains, and never fails.
///
/// Contracts see it as the list of its names with their contents, of which the last of a name counts, and the number of
/// bytes that it gave.
#[derive(Drop)]
pub struct SureFolder {
    alloc: Global,
    entries: Seq<(Text, Bytes)>,
    given: u64,
}

impl Model for SureFolder {
    ghost use Rattle.lot_play.specs.Folder.{FolderEntries};

    ghost Value = { FolderEntries };

    ghost view = { λ f. record { entries = f.entries; given = f.given } };
}

impl SureFolder {
    /// Makes a folder that contains no names. It takes no memory.
    pub fn new(alloc: Global) -> SureFolder
        ensures entries { result.entries ≡ [] }
        ensures given { result.given ≡ 0 }
    {
        SureFolder {
            alloc,
            entries: Seq::new(alloc),
            given: 0,
        }
    }

    /// Gives a name its content, in place of the one that it had. Where there is no memory the folder is as before.
    pub fn hold(&mut self, name: &str, content: &[u8]) -> Result<(), Memory>
        ensures ok { OnOk result
            (self.new.entries ≡ self.old.entries ++ (name.now, content.now) ∷ []) }
        ensures err { OnErr result (self.new.entries ≡ self.old.entries) }
        ensures given { self.new.given ≡ self.old.given }
    {
        let mut bytes = Bytes::new(self.alloc);
        bytes.append(content)?;
        let name = Text::of(self.alloc, name)?;
        self.entries.push((name, bytes))?;
        Ok(())
    }

    /// Finds the content of a name.
    fn find(&self, name: &str) -> Option<&Bytes>
        ensures { option_copied result ≡ content_of self.now.entries name.now }
    {
        find_last(self.entries.items(), name)
    }
}

/// Finds the content of the last entry of a name.
fn find_last<'a>(entries: &'a [(Text, Bytes)], name: &str) -> Option<&'a Bytes>
    ensures { option_copied result ≡ content_of entries.now name.now }
{
    let mut found = None;
    for e in entries {
        if e.0.as_str() == name {
            found = Some(&e.1);
        }
    }
    found
}

/// Copies the bytes of a content, from the place `from` on, into the first bytes of a buffer, and answers how many.
fn copy_from(content: &[u8], from: u64, buf: &mut [u8]) -> usize
    ensures within { result ≤ length buf.old }
    ensures bytes { ReadsInto buf.new content.now from result (length buf.old) }
{
    let rest = &content[content.len().min(from as usize)..];
    let n = rest.len().min(buf.len());
    buf[..n].copy_from_slice(&rest[..n]);
    n
}

impl Folder for SureFolder {
    ghost state = { λ f. record { content = content_of f.entries; faults = 0; given = f.given } };

    ghost serves = { λ f name. IsSome (content_of f.entries name) };

    fn read(&mut self, name: &str, from: u64, buf: &mut [u8]) -> Result<usize, Failed> {
        let n = match self.find(name) {
            Some(content) => copy_from(content.as_slice(), from, buf),
            None => unreachable!(),
        };
        self.given = self.given.saturating_add(n as u64);
        Ok(n)
    }
}

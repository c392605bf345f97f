//! A folder of one content, whose reads can fail.
ghost use Rattle.std.specs.Prelude.{◌≤◌, length, ⊤};
ghost use Rattle.lot_play.specs.RealFolder.{no_content};

use lot_play::Folder;
use lot_types::Failed;

/// A folder whose every name has one content, which it gives in pieces of a greatest length, and of which one read
/// fails.
#[derive(Drop)]
pub struct OneFile<'a> {
    content: &'a [u8],
    piece: usize,
    fails_at: u64,
    pub reads: u64,
    faults: u64,
    given: u64,
}

impl<'a> OneFile<'a> {
    /// Makes a folder of which no read fails.
    pub fn new(content: &'a [u8], piece: usize) -> OneFile<'a> {
        OneFile::failing(content, piece, 0)
    }

    /// Makes a folder of which the read of this number fails, counted from 1.
    pub fn failing(content: &'a [u8], piece: usize, fails_at: u64) -> OneFile<'a> {
        OneFile {
            content,
            piece,
            fails_at,
            reads: 0,
            faults: 0,
            given: 0,
        }
    }
}

fn copy_piece(content: &[u8], from: u64, piece: usize, buf: &mut [u8]) -> usize
    ensures { result ≤ length buf.old }
{
    let rest = &content[content.len().min(from as usize)..];
    let n = rest.len().min(buf.len()).min(piece);
    buf[..n].copy_from_slice(&rest[..n]);
    n
}

impl<'a> Folder for OneFile<'a> {
    ghost state = { λ f. record { content = no_content; faults = f.faults; given = f.given } };

    ghost serves = { λ _ _. ⊤ };

    fn read(&mut self, _name: &str, from: u64, buf: &mut [u8]) -> Result<usize, Failed> {
        self.reads = self.reads.saturating_add(1);
        if self.reads == self.fails_at {
            self.faults = self.faults.saturating_add(1);
            return Err(Failed);
        }
        let n = copy_piece(self.content, from, self.piece, buf);
        self.given = self.given.saturating_add(n as u64);
        Ok(n)
    }
}

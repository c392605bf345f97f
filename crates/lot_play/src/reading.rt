//! Reading a content from a folder to its end.
ghost use Rattle.std.specs.Prelude.{◌≡◌, ◌<◌, ◌≤◌, ℕ, List, Some, length, IfOk, Err};
ghost use Rattle.lot_play.specs.Count.{Rose, RoseBy, RoseAbove};
ghost use Rattle.lot_play.specs.Folder.{SameContents, SameServed};
ghost use Rattle.lot_play.specs.declared.reading.ReadRefusal.TheVariants as refusal;
ghost use Rattle.lot_play.specs.declared.reading.TheConstants.{MAX_DOCUMENT_BYTES};

use crate::outside::Folder;
use lot_types::{Bytes, Memory};
use std::alloc::Global;
use thiserror::Error;

/// The greatest number of bytes of a document.
pub const MAX_DOCUMENT_BYTES: usize = 16_777_216;

/// Reads the content of a name, once and to its end.
///
/// It answers the content, or that it has more than [`MAX_DOCUMENT_BYTES`], or that the folder failed. The folder's
/// contents are as before in every case.
pub fn read_all<F: Folder>(alloc: Global, folder: &mut F, name: &str) -> Result<Bytes, ReadRefusal>
    requires { F.serves folder.old name.now }
    ensures content { IfOk result (λ b. (content : List ℕ)
        → (F.state folder.old).content name.now ≡ Some content → b ≡ content) }
    ensures short { IfOk result (λ b. length b ≤ MAX_DOCUMENT_BYTES) }
    ensures once { IfOk result (λ b.
        RoseBy (length b) (F.state folder.old).given (F.state folder.new).given) }
    ensures long { result ≡ Err refusal.TooLong → (content : List ℕ)
        → (F.state folder.old).content name.now ≡ Some content → MAX_DOCUMENT_BYTES < length content }
    ensures long_given { result ≡ Err refusal.TooLong
        → RoseAbove MAX_DOCUMENT_BYTES (F.state folder.old).given (F.state folder.new).given }
    ensures failed { result ≡ Err refusal.Failed
        → Rose (F.state folder.old).faults (F.state folder.new).faults }
    ensures later { (F.state folder.old).faults ≤ (F.state folder.new).faults }
    ensures same { SameContents (F.state folder.old) (F.state folder.new) }
    ensures served { SameServed (F.serves folder.old) (F.serves folder.new) }
{
    let mut content = Bytes::new(alloc);
    let mut buf = [0; 65536];
    loop {
        let read = folder.read(name, content.as_slice().len() as u64, &mut buf);
        let n = match read {
            Ok(n) => n,
            Err(_) => return Err(ReadRefusal::Failed),
        };
        if n == 0 {
            return Ok(content);
        }
        content.append(&buf[..n])?;
        if content.as_slice().len() > MAX_DOCUMENT_BYTES {
            return Err(ReadRefusal::TooLong);
        }
    }
}

/// Why a content was not read.
#[derive(Clone, Copy, Debug, PartialEq, Eq, Error)]
pub enum ReadRefusal {
    /// A read of the folder failed.
    #[error("the folder failed")]
    Failed,
    /// The content has more than [`MAX_DOCUMENT_BYTES`].
    #[error("too long")]
    TooLong,
    /// Want of memory for the content.
    #[error("out of memory")]
    Memory,
}

impl From<Memory> for ReadRefusal {
    ghost from_gives = { λ _ e. e ≡ refusal.Memory };

    fn from(_memory: Memory) -> ReadRefusal {
        ReadRefusal::Memory
    }
}

//! Where documents are read from.
ghost use Rattle.std.specs.Prelude.{◌≡◌, ℕ, ◌≤◌, List, Some, length, IfOk, IsErr, OnErr};
ghost use Rattle.lot_play.specs.Count.{Rose, RoseBy};
ghost use Rattle.lot_play.specs.Folder.{FolderState, SameContents, SameServed, ReadsInto};

use lot_types::Failed;

/// Contents of bytes, by name.
///
/// A folder counts its faults and the bytes that it gave. It says which names it serves. What a name contains is
/// known of a folder in memory, and not of the files of a machine; clauses about content speak of what is known.
pub trait Folder {
    /// What the folder contains and counts. The counts never fall, and stay at the last value of 64 bits.
    ghost state: { Self → FolderState };

    /// The folder serves this name. A read never changes which names are served.
    ghost serves: { Self → List ℕ → Type 0 };

    /// Reads bytes of the named content, from the place `from` on, into the first bytes of `buf`, and answers how many.
    ///
    /// It answers 0 only at the end of the content, or for an empty buffer. The name has to be served; one that is
    /// served and not there is a fault, as is a read that fails. Accepted or refused, a read leaves the contents as
    /// they are.
    fn read(&mut self, name: &str, from: u64, buf: &mut [u8]) -> Result<usize, Failed>
        requires { serves self.old name.now }
        ensures within { IfOk result (λ n. n ≤ length buf.old) }
        ensures bytes { IfOk result (λ n. (content : List ℕ)
            → (state self.old).content name.now ≡ Some content
            → ReadsInto buf.new content from n (length buf.old)) }
        ensures given { IfOk result (λ n. RoseBy n (state self.old).given (state self.new).given) }
        ensures refused { OnErr result ((state self.new).given ≡ (state self.old).given) }
        ensures later { (state self.old).faults ≤ (state self.new).faults }
        ensures cause { IsErr result → Rose (state self.old).faults (state self.new).faults }
        ensures same { SameContents (state self.old) (state self.new) }
        ensures serves { SameServed (serves self.old) (serves self.new) };
}

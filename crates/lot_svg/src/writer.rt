//! The text of a frame while it is written.
ghost use Rattle.std.specs.Prelude.{◌≡◌, ◌+◌, ◌≤◌, [], false, length, None, OnOk, IfOk};
ghost use Rattle.lot_svg.specs.Items.{opens};
ghost use Rattle.lot_svg.specs.Written.{unwritten, append, put, begin, open_layer, paint, close_layer, finish};

use lot_types::{Bytes, Fx, Memory, Paint, Piece};
use std::alloc::Global;
use std::marker::Model;

/// The text of a frame up to here, and the number of the next identifier. Contracts see both.
///
/// Each call that writes puts its text at the end, or refuses for want of memory alone. Then a part of the text may
/// have been written, and the writer may only be dropped.
#[derive(Drop)]
pub struct Writer {
    out: Bytes,
    next: u64,
}

impl Model for Writer {
    ghost use Rattle.std.specs.Prelude.{◌≤◌, ◌+◌, length};
    ghost use Rattle.lot_svg.specs.Written.{Written};

    ghost Value = { Written };

    ghost view = { λ w. record { bytes = w.out; next = w.next } };

    ghost invariant = { λ w. w.next ≤ length w.out + 1 };
}

impl Writer {
    /// A writer that has written nothing. The first identifier is number 1.
    pub fn new(alloc: Global) -> Result<Writer, Memory>
        ensures { IfOk result (λ w. w ≡ unwritten) }
    {
        Ok(Writer {
            out: Bytes::new(alloc),
            next: 1,
        })
    }

    /// Writes bytes that open no definition.
    #[tactic(auto, unfolding(crate::specs::Written::append))]
    pub(crate) fn append(&mut self, bytes: &[u8]) -> Result<(), Memory>
        ensures { OnOk result (self.new ≡ append self.old bytes.now) }
    {
        self.out.append(bytes)
    }

    /// Writes a text that opens no definition.
    pub(crate) fn put(&mut self, text: &str) -> Result<(), Memory>
        ensures { OnOk result (self.new ≡ append self.old text.now) }
    {
        self.append(text.as_bytes())
    }

    /// Writes the next identifier, of a definition that opens, and counts it.
    pub(crate) fn put_next_identifier(&mut self) -> Result<(), Memory>
        ensures { OnOk result (self.new ≡ put self.old (opens [] self.old.next)) }
    {
        self.put_identifier(self.next)?;
        // There are no more identifiers than bytes in memory, so the sum fits.
        let _written = self.out.as_slice();
        self.next += 1;
        Ok(())
    }

    /// The number that the next identifier will have. It takes no memory.
    pub fn next_id(&self) -> u64
        ensures value { result ≡ self.now.next }
        ensures bound { result ≤ length self.now.bytes + 1 }
    {
        self.next
    }

    /// Writes the tag that opens the root element, for a picture of `w` by `h`, in millionths of a pixel.
    pub fn begin(&mut self, w: Fx, h: Fx) -> Result<(), Memory>
        ensures { OnOk result (self.new ≡ begin w h self.old) }
    {
        self.put_head(w, h)
    }

    /// Opens the group of a layer. `matte` is the number of the mask in which the matte of the layer was written. As
    /// yet no layer has a matte, nor a mask of its own.
    pub fn open_layer(&mut self, matte: Option<u64>, p: &Piece) -> Result<(), Memory>
        requires no_matte { matte ≡ None }
        requires unmasked { p.now.masked ≡ false }
        ensures { OnOk result (self.new ≡ open_layer matte p.now self.old) }
    {
        self.open_group(p)
    }

    /// Writes a paint: the definition of its gradient, if it has one, and its contours, filled or stroked. It is not
    /// written where it has no contours, and then uses up no identifier.
    pub fn paint(&mut self, p: &Paint) -> Result<(), Memory>
        ensures { OnOk result (self.new ≡ paint self.old p.now) }
    {
        if p.contours.items().is_empty() {
            return Ok(());
        }
        let n = self.next;
        self.put_ink_definition(&p.ink)?;
        self.put_path_of(p, n)
    }

    /// Closes the group of a layer and, where it has a matte, the group that the matte masks.
    pub fn close_layer(&mut self, matte: bool) -> Result<(), Memory>
        ensures { OnOk result (self.new ≡ close_layer matte self.old) }
    {
        self.end_group()?;
        if matte { self.end_group() } else { Ok(()) }
    }

    /// Closes the root element and returns the text.
    #[tactic(auto, unfolding(crate::specs::Written::append))]
    pub fn end(self) -> Result<Bytes, Memory>
        ensures { IfOk result (λ b. b ≡ finish self) }
    {
        let mut w = self;
        w.put_tail()?;
        Ok(w.out)
    }
}

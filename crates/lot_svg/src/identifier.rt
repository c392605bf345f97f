//! Identifiers of definitions, and references to them.
ghost use Rattle.std.specs.Prelude.{◌≡◌, ◌++◌, codes, OnOk};
ghost use Rattle.lot_svg.specs.Element.{attribute_start, tag_start};
ghost use Rattle.lot_svg.specs.Items.{opens, identifier_text};
ghost use Rattle.lot_svg.specs.Paint.{reference};
ghost use Rattle.lot_svg.specs.Written.{append, put, add};

use crate::Writer;
use itoa::Buffer;
use lot_types::Memory;

impl Writer {
    /// Writes the identifier of this number.
    #[tactic(auto, using(crate::proofs::Appends::appending), unfolding(crate::specs::Items::identifier_text))]
    pub(crate) fn put_identifier(&mut self, n: u64) -> Result<(), Memory>
        ensures { OnOk result (self.new ≡ append self.old (identifier_text n)) }
    {
        let mut digits = Buffer::new();
        self.put("i")?;
        self.put(digits.format(n))
    }

    /// Opens a definition: writes the start of its tag and its identifier, which has the next number and is counted.
    #[tactic(auto, using(crate::proofs::Appends::appending, crate::proofs::Definitions::opens_after))]
    pub(crate) fn open_definition(&mut self, name: &str) -> Result<(), Memory>
        ensures { OnOk result (self.new ≡ put self.old
            (opens (tag_start name.now ++ attribute_start (codes "id")) self.old.next)) }
    {
        self.start_tag(name)?;
        self.start_attribute("id")?;
        self.put_next_identifier()
    }

    /// Writes a reference to the definition whose number is `n`, as `url(#i1)`.
    #[tactic(auto, using(crate::proofs::Appends::appending))]
    pub(crate) fn put_reference(&mut self, n: u64) -> Result<(), Memory>
        ensures { OnOk result (self.new ≡ add (reference n) self.old) }
    {
        self.put("url(#")?;
        self.put_identifier(n)?;
        self.put(")")
    }
}

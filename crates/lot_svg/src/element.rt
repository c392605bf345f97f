//! Tags and attributes.
ghost use Rattle.std.specs.Prelude.{◌≡◌, OnOk};
ghost use Rattle.lot_svg.specs.Element.{attribute, attribute_start, attribute_end, tag_start, tag_end, empty_tag_end, close_tag};
ghost use Rattle.lot_svg.specs.Written.{append};

use crate::Writer;
use lot_types::Memory;

impl Writer {
    /// Writes the start of a tag, up to its name.
    #[tactic(auto, using(crate::proofs::Appends::appending), unfolding(crate::specs::Element::tag_start))]
    pub(crate) fn start_tag(&mut self, name: &str) -> Result<(), Memory>
        ensures { OnOk result (self.new ≡ append self.old (tag_start name.now)) }
    {
        self.put("<")?;
        self.put(name)
    }

    /// Writes the end of a tag that opens an element.
    #[tactic(auto, using(crate::proofs::Appends::appending), unfolding(crate::specs::Element::tag_end))]
    pub(crate) fn end_tag(&mut self) -> Result<(), Memory>
        ensures { OnOk result (self.new ≡ append self.old tag_end) }
    {
        self.put(">\n")
    }

    /// Writes the end of the tag of an element without content.
    #[tactic(auto, using(crate::proofs::Appends::appending), unfolding(crate::specs::Element::empty_tag_end))]
    pub(crate) fn end_empty_tag(&mut self) -> Result<(), Memory>
        ensures { OnOk result (self.new ≡ append self.old empty_tag_end) }
    {
        self.put("/>\n")
    }

    /// Writes the tag that closes an element.
    #[tactic(auto, using(crate::proofs::Appends::appending), unfolding(crate::specs::Element::close_tag))]
    pub(crate) fn put_close_tag(&mut self, name: &str) -> Result<(), Memory>
        ensures { OnOk result (self.new ≡ append self.old (close_tag name.now)) }
    {
        self.put("</")?;
        self.put(name)?;
        self.put(">\n")
    }

    /// Writes the start of an attribute, up to its value.
    #[tactic(auto, using(crate::proofs::Appends::appending), unfolding(crate::specs::Element::attribute_start))]
    pub(crate) fn start_attribute(&mut self, name: &str) -> Result<(), Memory>
        ensures { OnOk result (self.new ≡ append self.old (attribute_start name.now)) }
    {
        self.put(" ")?;
        self.put(name)?;
        self.put("=\"")
    }

    /// Writes the end of an attribute, after its value.
    #[tactic(auto, using(crate::proofs::Appends::appending), unfolding(crate::specs::Element::attribute_end))]
    pub(crate) fn end_attribute(&mut self) -> Result<(), Memory>
        ensures { OnOk result (self.new ≡ append self.old attribute_end) }
    {
        self.put("\"")
    }

    /// Writes an attribute.
    #[tactic(auto, using(crate::proofs::Appends::appending), unfolding(crate::specs::Element::attribute))]
    pub(crate) fn put_attribute(&mut self, name: &str, value: &str) -> Result<(), Memory>
        ensures { OnOk result (self.new ≡ append self.old (attribute name.now value.now)) }
    {
        self.start_attribute(name)?;
        self.put(value)?;
        self.end_attribute()
    }
}

//! The tags of the root element.
ghost use Rattle.std.specs.Prelude.{◌≡◌, OnOk};
ghost use Rattle.lot_svg.specs.Svg.{view_box_text, view_box_attribute, size_text, namespace_text, version_text, head_text, tail_text};
ghost use Rattle.lot_svg.specs.Written.{append};

use crate::Writer;
use lot_types::{Fx, Memory};

impl Writer {
    /// Writes the part of the plane that a picture of this size shows.
    #[tactic(auto, using(crate::proofs::Appends::appending), unfolding(crate::specs::Svg::view_box_text))]
    fn put_view_box(&mut self, w: Fx, h: Fx) -> Result<(), Memory>
        ensures { OnOk result (self.new ≡ append self.old (view_box_text w h)) }
    {
        self.put("0 0 ")?;
        self.put_length(w)?;
        self.put(" ")?;
        self.put_length(h)
    }

    #[tactic(auto, using(crate::proofs::Appends::appending), unfolding(crate::specs::Element::attribute))]
    fn put_view_box_attribute(&mut self, w: Fx, h: Fx) -> Result<(), Memory>
        ensures { OnOk result (self.new ≡ append self.old (view_box_attribute w h)) }
    {
        self.start_attribute("viewBox")?;
        self.put_view_box(w, h)?;
        self.end_attribute()
    }

    #[tactic(auto, using(crate::proofs::Appends::appending), unfolding(crate::specs::Svg::size_text))]
    fn put_size(&mut self, w: Fx, h: Fx) -> Result<(), Memory>
        ensures { OnOk result (self.new ≡ append self.old (size_text w h)) }
    {
        self.put_length_attribute("width", w)?;
        self.put_length_attribute("height", h)?;
        self.put_view_box_attribute(w, h)
    }

    /// Writes the namespace of SVG.
    #[tactic(auto, using(crate::proofs::Appends::appending), unfolding(crate::specs::Svg::namespace_text))]
    fn put_namespace(&mut self) -> Result<(), Memory>
        ensures { OnOk result (self.new ≡ append self.old namespace_text) }
    {
        self.put_attribute("xmlns", "http://www.w3.org/2000/svg")
    }

    /// Writes the version of SVG.
    #[tactic(auto, using(crate::proofs::Appends::appending), unfolding(crate::specs::Svg::version_text))]
    fn put_version(&mut self) -> Result<(), Memory>
        ensures { OnOk result (self.new ≡ append self.old version_text) }
    {
        self.put_attribute("version", "1.1")
    }

    /// Writes the tag that opens the root element.
    #[tactic(auto, using(crate::proofs::Appends::appending), unfolding(crate::specs::Svg::head_text))]
    pub(crate) fn put_head(&mut self, w: Fx, h: Fx) -> Result<(), Memory>
        ensures { OnOk result (self.new ≡ append self.old (head_text w h)) }
    {
        self.start_tag("svg")?;
        self.put_namespace()?;
        self.put_version()?;
        self.put_size(w, h)?;
        self.end_tag()
    }

    /// Writes the tag that closes the root element.
    #[tactic(auto, using(crate::proofs::Appends::appending), unfolding(crate::specs::Svg::tail_text))]
    pub(crate) fn put_tail(&mut self) -> Result<(), Memory>
        ensures { OnOk result (self.new ≡ append self.old tail_text) }
    {
        self.put_close_tag("svg")
    }
}

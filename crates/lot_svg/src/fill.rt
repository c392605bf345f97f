//! Fills.
ghost use Rattle.std.specs.Prelude.{◌≡◌, ◌++◌, codes, OnOk};
ghost use Rattle.lot_svg.specs.Element.{attribute_start, tag_start};
ghost use Rattle.lot_svg.specs.Paint.{rule_text};
ghost use Rattle.lot_svg.specs.Written.{append};

use crate::Writer;
use lot_types::Memory;

impl Writer {
    /// Writes what a fill has before its ink.
    #[tactic(auto, using(crate::proofs::Appends::appending))]
    pub(crate) fn start_fill(&mut self) -> Result<(), Memory>
        ensures { OnOk result (self.new
            ≡ append self.old (tag_start (codes "path") ++ attribute_start (codes "fill"))) }
    {
        self.start_tag("path")?;
        self.start_attribute("fill")
    }

    /// Writes the attribute of the rule by which a point is inside, which is left out for `nonzero`.
    #[tactic(auto, using(crate::proofs::Appends::appending))]
    pub(crate) fn put_rule(&mut self, even_odd: bool) -> Result<(), Memory>
        ensures { OnOk result (self.new ≡ append self.old (rule_text even_odd)) }
    {
        if even_odd {
            self.put_attribute("fill-rule", "evenodd")
        } else {
            Ok(())
        }
    }
}

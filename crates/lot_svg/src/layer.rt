//! Groups of layers.
ghost use Rattle.std.specs.Prelude.{◌≡◌, false, OnOk};
ghost use Rattle.lot_svg.specs.Layer.{group_start};
ghost use Rattle.lot_svg.specs.Matte.{group_end};
ghost use Rattle.lot_svg.specs.Written.{append, open_group};

use crate::Writer;
use lot_types::{Memory, Piece};

impl Writer {
    /// Writes the tag that opens the group of a layer, with its transform and its opacity, up to its mask.
    #[tactic(auto, using(crate::proofs::Appends::appending), unfolding(crate::specs::Layer::group_start))]
    fn start_group(&mut self, p: &Piece) -> Result<(), Memory>
        ensures { OnOk result (self.new ≡ append self.old (group_start p.now)) }
    {
        self.start_tag("g")?;
        self.put_transform(&p.matrix)?;
        self.put_opacity("opacity", p.opacity)
    }

    /// Writes the tag that closes a group.
    #[tactic(auto, using(crate::proofs::Appends::appending), unfolding(crate::specs::Matte::group_end))]
    pub(crate) fn end_group(&mut self) -> Result<(), Memory>
        ensures { OnOk result (self.new ≡ append self.old group_end) }
    {
        self.put_close_tag("g")
    }

    /// Writes the tag that opens the group of a layer without a mask.
    pub(crate) fn open_group(&mut self, p: &Piece) -> Result<(), Memory>
        requires unmasked { p.now.masked ≡ false }
        ensures { OnOk result (self.new ≡ open_group p.now self.old) }
    {
        self.start_group(p)?;
        self.end_tag()
    }
}

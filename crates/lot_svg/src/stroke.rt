//! Strokes.
ghost use Rattle.std.specs.Prelude.{◌≡◌, ◌++◌, codes, OnOk};
ghost use Rattle.lot_svg.specs.Element.{attribute, attribute_start, tag_start};
ghost use Rattle.lot_svg.specs.Number.{length_text};
ghost use Rattle.lot_svg.specs.Paint.{cap_text, join_text, miter_text, more_lengths_text, dashes_text, dash_offset_text};
ghost use Rattle.lot_svg.specs.Written.{append};

use crate::Writer;
use lot_types::{Fx, Memory};

/// The ends of a line: 1 butt, 2 round, and else square.
fn cap_name(cap: u8) -> &'static str
    ensures { result.now ≡ cap_text cap }
{
    match cap {
        1 => "butt",
        2 => "round",
        _ => "square",
    }
}

/// The corners of a line: 1 miter, 2 round, and else bevel.
fn join_name(join: u8) -> &'static str
    ensures { result.now ≡ join_text join }
{
    match join {
        1 => "miter",
        2 => "round",
        _ => "bevel",
    }
}

impl Writer {
    /// Writes what a stroke has before its ink.
    #[tactic(auto, using(crate::proofs::Appends::appending))]
    pub(crate) fn start_stroke(&mut self) -> Result<(), Memory>
        ensures { OnOk result (self.new ≡ append self.old (tag_start (codes "path")
            ++ attribute (codes "fill") (codes "none") ++ attribute_start (codes "stroke"))) }
    {
        self.start_tag("path")?;
        self.put_attribute("fill", "none")?;
        self.start_attribute("stroke")
    }

    /// Writes the attribute of the ends.
    pub(crate) fn put_cap(&mut self, cap: u8) -> Result<(), Memory>
        ensures { OnOk result (self.new
            ≡ append self.old (attribute (codes "stroke-linecap") (cap_text cap))) }
    {
        self.put_attribute("stroke-linecap", cap_name(cap))
    }

    /// Writes the attribute of the corners.
    pub(crate) fn put_join(&mut self, join: u8) -> Result<(), Memory>
        ensures { OnOk result (self.new
            ≡ append self.old (attribute (codes "stroke-linejoin") (join_text join))) }
    {
        self.put_attribute("stroke-linejoin", join_name(join))
    }

    /// Writes the attribute of the miter limit, which is left out where the corners are not mitered.
    #[tactic(auto, using(crate::proofs::Appends::appending))]
    pub(crate) fn put_miter(&mut self, join: u8, miter: Fx) -> Result<(), Memory>
        ensures { OnOk result (self.new ≡ append self.old (miter_text join miter)) }
    {
        if join == 1 {
            self.put_length_attribute("stroke-miterlimit", miter)
        } else {
            Ok(())
        }
    }

    /// Writes a length after a space.
    #[tactic(auto, using(crate::proofs::Appends::appending))]
    fn put_spaced(&mut self, length: Fx) -> Result<(), Memory>
        ensures { OnOk result (self.new ≡ append self.old (codes " " ++ length_text length)) }
    {
        self.put(" ")?;
        self.put_length(length)
    }

    /// Writes lengths, each after a space.
    fn put_more_lengths(&mut self, lengths: &[Fx]) -> Result<(), Memory>
        ensures { OnOk result (self.new ≡ append self.old (more_lengths_text lengths.now)) }
    {
        for length in lengths {
            self.put_spaced(*length)?;
        }
        Ok(())
    }

    /// Writes the attribute of dashes, which is left out where there are none.
    #[tactic(auto, using(crate::proofs::Appends::appending))]
    pub(crate) fn put_dashes(&mut self, dashes: &[Fx]) -> Result<(), Memory>
        ensures { OnOk result (self.new ≡ append self.old (dashes_text dashes.now)) }
    {
        let [first, more @ ..] = dashes else {
            return Ok(());
        };
        self.start_attribute("stroke-dasharray")?;
        self.put_length(*first)?;
        self.put_more_lengths(more)?;
        self.end_attribute()
    }

    /// Writes the attribute of the length at which the line enters its dashes.
    #[tactic(auto, using(crate::proofs::Appends::appending))]
    pub(crate) fn put_dash_offset(&mut self, offset: Option<Fx>) -> Result<(), Memory>
        ensures { OnOk result (self.new ≡ append self.old (dash_offset_text offset)) }
    {
        match offset {
            None => Ok(()),
            Some(offset) => self.put_length_attribute("stroke-dashoffset", offset),
        }
    }
}

//! Paints.
ghost use Rattle.std.specs.Prelude.{◌≡◌, OnOk};
ghost use Rattle.lot_svg.specs.Paint.{before_ink, after_ink, brush_text, data_text, ink_value, path_items};
ghost use Rattle.lot_svg.specs.Written.{append, add};

use crate::Writer;
use lot_types::{Brush, Contour, Fx, Ink, Memory, Paint};

impl Writer {
    /// Writes what a path has before its ink.
    #[tactic(auto, using(crate::proofs::Appends::appending), unfolding(crate::specs::Paint::before_ink))]
    fn start_path(&mut self, brush: &Brush) -> Result<(), Memory>
        ensures { OnOk result (self.new ≡ append self.old (before_ink brush.now)) }
    {
        match brush {
            Brush::Fill { .. } => self.start_fill(),
            Brush::Stroke { .. } => self.start_stroke(),
        }
    }

    /// Writes the attributes of a brush and of its opacity.
    fn put_brush(&mut self, brush: &Brush, opacity: Fx) -> Result<(), Memory>
        ensures { OnOk result (self.new ≡ append self.old (brush_text brush.now opacity)) }
    {
        match brush {
            Brush::Fill { even_odd } => {
                self.put_opacity("fill-opacity", opacity)?;
                self.put_rule(*even_odd)
            }
            Brush::Stroke {
                width,
                cap,
                join,
                miter,
                dashes,
                dash_offset,
            } => {
                self.put_opacity("stroke-opacity", opacity)?;
                self.put_length_attribute("stroke-width", *width)?;
                self.put_cap(*cap)?;
                self.put_join(*join)?;
                self.put_miter(*join, *miter)?;
                self.put_dashes(dashes.items())?;
                self.put_dash_offset(*dash_offset)
            }
        }
    }

    /// Writes the attribute of path data.
    #[tactic(auto, using(crate::proofs::Appends::appending), unfolding(crate::specs::Element::attribute))]
    fn put_data(&mut self, contours: &[Contour]) -> Result<(), Memory>
        ensures { OnOk result (self.new ≡ append self.old (data_text contours.now)) }
    {
        self.start_attribute("d")?;
        self.put_path(contours)?;
        self.end_attribute()
    }

    /// Writes what a path has after its ink.
    #[tactic(auto, using(crate::proofs::Appends::appending), unfolding(crate::specs::Paint::after_ink))]
    fn end_path(&mut self, p: &Paint) -> Result<(), Memory>
        ensures { OnOk result (self.new ≡ append self.old (after_ink p.now)) }
    {
        self.end_attribute()?;
        self.put_brush(&p.brush, p.opacity)?;
        self.put_transform(&p.matrix)?;
        self.put_data(p.contours.items())?;
        self.end_empty_tag()
    }

    /// Writes the value of the attribute for an ink whose definition, if it has one, has the number `n`.
    fn put_ink(&mut self, ink: &Ink, n: u64) -> Result<(), Memory>
        ensures { OnOk result (self.new ≡ add (ink_value ink.now n) self.old) }
    {
        match ink {
            Ink::Flat(rgb) => self.put_color(*rgb),
            Ink::Linear { .. } | Ink::Radial { .. } => self.put_reference(n),
        }
    }

    /// Writes the path of a paint whose ink has the number `n`, if it has a definition.
    pub(crate) fn put_path_of(&mut self, p: &Paint, n: u64) -> Result<(), Memory>
        ensures { OnOk result (self.new ≡ add (path_items p.now n) self.old) }
    {
        self.start_path(&p.brush)?;
        self.put_ink(&p.ink, n)?;
        self.end_path(p)
    }
}

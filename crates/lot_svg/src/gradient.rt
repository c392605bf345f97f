//! Definitions of gradients.
ghost use Rattle.std.specs.Prelude.{◌≡◌, ◌++◌, codes, flat_map, OnOk};
ghost use Rattle.lot_svg.specs.Element.{tag_end, close_tag};
ghost use Rattle.lot_svg.specs.Paint.{stop_text, units_text, linear_text, radial_text, gradient_definition, ink_definition};
ghost use Rattle.lot_svg.specs.Written.{append, add};

use crate::Writer;
use lot_types::{Fx, Ink, Memory, Point, Stop};

impl Writer {
    /// Writes the definition of an ink, which has the next identifier. An ink of one color has none.
    pub(crate) fn put_ink_definition(&mut self, ink: &Ink) -> Result<(), Memory>
        ensures { OnOk result (self.new ≡ add (ink_definition ink.now self.old.next) self.old) }
    {
        match ink {
            Ink::Flat(_) => Ok(()),
            Ink::Linear { from, to, stops } => self.put_linear(from, to, stops.items()),
            Ink::Radial {
                center,
                radius,
                focus,
                stops,
            } => self.put_radial(center, *radius, focus, stops.items()),
        }
    }

    /// Writes the definition of a gradient along a line.
    #[tactic(auto, using(crate::proofs::Definitions::gradient_written))]
    fn put_linear(&mut self, from: &Point, to: &Point, stops: &[Stop]) -> Result<(), Memory>
        ensures { OnOk result (self.new ≡ add (gradient_definition (codes "linearGradient")
            (linear_text from.now to.now) stops.now self.old.next) self.old) }
    {
        self.open_definition("linearGradient")?;
        self.end_attribute()?;
        self.put_line_ends(from, to)?;
        self.end_gradient("linearGradient", stops)
    }

    /// Writes the definition of a gradient from a focus to a circle.
    #[tactic(auto, using(crate::proofs::Definitions::gradient_written))]
    fn put_radial(
        &mut self,
        center: &Point,
        radius: Fx,
        focus: &Point,
        stops: &[Stop],
    ) -> Result<(), Memory>
        ensures { OnOk result (self.new ≡ add (gradient_definition (codes "radialGradient")
            (radial_text center.now radius focus.now) stops.now self.old.next) self.old) }
    {
        self.open_definition("radialGradient")?;
        self.end_attribute()?;
        self.put_circle(center, radius, focus)?;
        self.end_gradient("radialGradient", stops)
    }

    /// Writes the attribute by which the points of a gradient are in the space of its path.
    #[tactic(auto, using(crate::proofs::Appends::appending), unfolding(crate::specs::Paint::units_text))]
    fn put_units(&mut self) -> Result<(), Memory>
        ensures { OnOk result (self.new ≡ append self.old units_text) }
    {
        self.put_attribute("gradientUnits", "userSpaceOnUse")
    }

    /// Writes the attributes of the line of a linear gradient.
    #[tactic(auto, using(crate::proofs::Appends::appending), unfolding(crate::specs::Paint::linear_text))]
    fn put_line_ends(&mut self, from: &Point, to: &Point) -> Result<(), Memory>
        ensures { OnOk result (self.new ≡ append self.old (linear_text from.now to.now)) }
    {
        self.put_units()?;
        self.put_length_attribute("x1", from.x)?;
        self.put_length_attribute("y1", from.y)?;
        self.put_length_attribute("x2", to.x)?;
        self.put_length_attribute("y2", to.y)
    }

    /// Writes the attributes of the circle and of the focus of a radial gradient.
    #[tactic(auto, using(crate::proofs::Appends::appending), unfolding(crate::specs::Paint::radial_text))]
    fn put_circle(&mut self, center: &Point, radius: Fx, focus: &Point) -> Result<(), Memory>
        ensures { OnOk result (self.new
            ≡ append self.old (radial_text center.now radius focus.now)) }
    {
        self.put_units()?;
        self.put_length_attribute("cx", center.x)?;
        self.put_length_attribute("cy", center.y)?;
        self.put_length_attribute("r", radius)?;
        self.put_length_attribute("fx", focus.x)?;
        self.put_length_attribute("fy", focus.y)
    }

    /// Writes what a gradient has after its attributes: its stops, and the tag that closes it.
    #[tactic(auto, using(crate::proofs::Appends::appending))]
    fn end_gradient(&mut self, name: &str, stops: &[Stop]) -> Result<(), Memory>
        ensures { OnOk result (self.new
            ≡ append self.old (tag_end ++ flat_map stop_text stops.now ++ close_tag name.now)) }
    {
        self.end_tag()?;
        self.put_stops(stops)?;
        self.put_close_tag(name)
    }

    /// Writes stops in order.
    fn put_stops(&mut self, stops: &[Stop]) -> Result<(), Memory>
        ensures { OnOk result (self.new ≡ append self.old (flat_map stop_text stops.now)) }
    {
        for s in stops {
            self.put_stop(s)?;
        }
        Ok(())
    }

    /// Writes a stop with all of its attributes, also those that have their default value.
    #[tactic(auto, using(crate::proofs::Appends::appending), unfolding(crate::specs::Paint::stop_text))]
    fn put_stop(&mut self, s: &Stop) -> Result<(), Memory>
        ensures { OnOk result (self.new ≡ append self.old (stop_text s.now)) }
    {
        self.start_tag("stop")?;
        self.put_fraction_attribute("offset", s.offset)?;
        self.put_color_attribute("stop-color", s.rgb)?;
        self.put_fraction_attribute("stop-opacity", s.alpha)?;
        self.end_empty_tag()
    }
}

//! Numbers, colors and matrices as values of attributes.
ghost use Rattle.std.specs.Prelude.{◌≡◌, ◌≤◌, ◌<◌, OnOk};
ghost use Rattle.lot_num.specs.Digits.{printed};
ghost use Rattle.lot_svg.specs.Element.{attribute};
ghost use Rattle.lot_svg.specs.Number.{length_text, entry_text, fraction_text, entry_pair_text, hex_text, byte_text, color_text, is_identity as identity, matrix_text, transform_text, opacity_text, length_attribute};
ghost use Rattle.lot_svg.specs.Written.{append};

use crate::Writer;
use lot_num::print_fx;
use lot_types::{Fx, Matrix, Memory, Rgb};

fn hex_digit(n: u8) -> u8
    requires { n < 16 }
    ensures { result ≡ hex_text n }
{
    if n < 10 { 48 + n } else { 87 + n }
}

fn is_identity(m: &Matrix) -> bool
    ensures { result ≡ identity m.now }
{
    *m == Matrix::IDENTITY
}

impl Writer {
    /// Writes a number with at most `digits` decimals, of which there may be six.
    fn put_number(&mut self, v: Fx, digits: u32) -> Result<(), Memory>
        requires { digits ≤ 6 }
        ensures { OnOk result (self.new ≡ append self.old (printed v digits)) }
    {
        let mut text = [0; 24];
        let n = print_fx(v.get(), digits, &mut text);
        self.append(&text[..n])
    }

    /// Writes a coordinate or a length in pixels, with at most three decimals.
    #[tactic(auto, using(crate::proofs::Appends::appending), unfolding(crate::specs::Number::length_text))]
    pub(crate) fn put_length(&mut self, v: Fx) -> Result<(), Memory>
        ensures { OnOk result (self.new ≡ append self.old (length_text v)) }
    {
        self.put_number(v, 3)
    }

    /// Writes an entry of a matrix, with at most six decimals.
    #[tactic(auto, using(crate::proofs::Appends::appending), unfolding(crate::specs::Number::entry_text))]
    fn put_entry(&mut self, v: Fx) -> Result<(), Memory>
        ensures { OnOk result (self.new ≡ append self.old (entry_text v)) }
    {
        self.put_number(v, 6)
    }

    /// Writes an opacity or an offset, with at most six decimals.
    #[tactic(auto, using(crate::proofs::Appends::appending), unfolding(crate::specs::Number::fraction_text))]
    fn put_fraction(&mut self, v: Fx) -> Result<(), Memory>
        ensures { OnOk result (self.new ≡ append self.old (fraction_text v)) }
    {
        self.put_number(v, 6)
    }

    #[tactic(auto, using(crate::proofs::Appends::appending), unfolding(crate::specs::Number::byte_text))]
    fn put_byte(&mut self, n: u8) -> Result<(), Memory>
        ensures { OnOk result (self.new ≡ append self.old (byte_text n)) }
    {
        self.append(&[hex_digit(n / 16), hex_digit(n % 16)])
    }

    /// Writes a color as `#rrggbb`.
    #[tactic(auto, using(crate::proofs::Appends::appending), unfolding(crate::specs::Number::color_text))]
    pub(crate) fn put_color(&mut self, c: Rgb) -> Result<(), Memory>
        ensures { OnOk result (self.new ≡ append self.old (color_text c)) }
    {
        self.put("#")?;
        self.put_byte(c.r)?;
        self.put_byte(c.g)?;
        self.put_byte(c.b)
    }

    /// Writes an attribute that is a color.
    #[tactic(auto, using(crate::proofs::Appends::appending), unfolding(crate::specs::Element::attribute))]
    pub(crate) fn put_color_attribute(&mut self, name: &str, c: Rgb) -> Result<(), Memory>
        ensures { OnOk result (self.new ≡ append self.old (attribute name.now (color_text c))) }
    {
        self.start_attribute(name)?;
        self.put_color(c)?;
        self.end_attribute()
    }

    /// Writes two entries of a matrix.
    #[tactic(auto, using(crate::proofs::Appends::appending))]
    fn put_entry_pair(&mut self, x: Fx, y: Fx) -> Result<(), Memory>
        ensures { OnOk result (self.new ≡ append self.old (entry_pair_text x y)) }
    {
        self.put_entry(x)?;
        self.put(" ")?;
        self.put_entry(y)
    }

    /// Writes a matrix as `matrix(a b c d e f)`.
    #[tactic(auto, using(crate::proofs::Appends::appending), unfolding(crate::specs::Number::matrix_text))]
    fn put_matrix(&mut self, m: &Matrix) -> Result<(), Memory>
        ensures { OnOk result (self.new ≡ append self.old (matrix_text m.now)) }
    {
        self.put("matrix(")?;
        self.put_entry_pair(m.a, m.b)?;
        self.put(" ")?;
        self.put_entry_pair(m.c, m.d)?;
        self.put(" ")?;
        self.put_entry_pair(m.e, m.f)?;
        self.put(")")
    }

    #[tactic(auto, using(crate::proofs::Appends::appending), unfolding(crate::specs::Element::attribute))]
    fn put_matrix_attribute(&mut self, name: &str, m: &Matrix) -> Result<(), Memory>
        ensures { OnOk result (self.new
            ≡ append self.old (attribute name.now (matrix_text m.now))) }
    {
        self.start_attribute(name)?;
        self.put_matrix(m)?;
        self.end_attribute()
    }

    /// Writes the attribute of a transform, which is left out where it is the identity.
    #[tactic(auto, using(crate::proofs::Appends::appending), unfolding(crate::specs::Number::transform_text))]
    pub(crate) fn put_transform(&mut self, m: &Matrix) -> Result<(), Memory>
        ensures { OnOk result (self.new ≡ append self.old (transform_text m.now)) }
    {
        if is_identity(m) {
            return Ok(());
        }
        self.put_matrix_attribute("transform", m)
    }

    /// Writes an attribute that is an opacity or an offset.
    #[tactic(auto, using(crate::proofs::Appends::appending), unfolding(crate::specs::Element::attribute))]
    pub(crate) fn put_fraction_attribute(&mut self, name: &str, v: Fx) -> Result<(), Memory>
        ensures { OnOk result (self.new ≡ append self.old (attribute name.now (fraction_text v))) }
    {
        self.start_attribute(name)?;
        self.put_fraction(v)?;
        self.end_attribute()
    }

    /// Writes the attribute of an opacity, which is left out where it is 1.
    #[tactic(auto, using(crate::proofs::Appends::appending), unfolding(crate::specs::Number::opacity_text))]
    pub(crate) fn put_opacity(&mut self, name: &str, opacity: Fx) -> Result<(), Memory>
        ensures { OnOk result (self.new ≡ append self.old (opacity_text name.now opacity)) }
    {
        if opacity.get() == 1_000_000 {
            return Ok(());
        }
        self.put_fraction_attribute(name, opacity)
    }

    /// Writes an attribute that is a length.
    #[tactic(auto, using(crate::proofs::Appends::appending), unfolding(crate::specs::Element::attribute))]
    pub(crate) fn put_length_attribute(&mut self, name: &str, v: Fx) -> Result<(), Memory>
        ensures { OnOk result (self.new ≡ append self.old (length_attribute name.now v)) }
    {
        self.start_attribute(name)?;
        self.put_length(v)?;
        self.end_attribute()
    }
}

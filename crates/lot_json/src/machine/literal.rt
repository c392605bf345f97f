//! The literal names `null`, `true` and `false`, and reading them.

ghost use Rattle.std.specs.Prelude.{◌≡◌, IfOk};

use crate::Json;
use crate::machine::{Machine, Mode};
use lot_types::Memory;

/// One of the three literal names of RFC 8259, section 3.
#[derive(Clone, Copy)]
pub(crate) enum Literal {
    Null,
    True,
    False,
}

impl Literal {
    ghost use Rattle.lot_json.specs.Literal.{letters_of, value_of};

    /// The letters of the literal name.
    pub(crate) fn letters(self) -> &'static [u8]
        ensures { result.now ≡ letters_of self }
    {
        match self {
            Literal::Null => b"null",
            Literal::True => b"true",
            Literal::False => b"false",
        }
    }

    /// The value of the literal name.
    pub(crate) fn value(self) -> Json
        ensures { result ≡ value_of self }
    {
        match self {
            Literal::Null => Json::Null,
            Literal::True => Json::Bool(true),
            Literal::False => Json::Bool(false),
        }
    }
}

impl Machine {
    ghost use Rattle.lot_json.specs.Pending.{state_of};
    ghost use Rattle.lot_json.specs.Residual.{ReadsByte};

    /// Reads the next letter of a literal name of which `read` letters were read. False where the byte is another.
    pub(crate) fn read_literal(
        &mut self,
        literal: Literal,
        read: usize,
        c: u8,
    ) -> Result<bool, Memory>
        requires { self.old.mode ≡ Mode.Literal literal read }
        ensures { IfOk result (λ continues. ReadsByte continues c
            (state_of self.old) (state_of self.new)) }
    {
        let letters = literal.letters();
        if read >= letters.len() {
            return Ok(false);
        }
        if letters[read] != c {
            return Ok(false);
        }
        if read + 1 < letters.len() {
            self.set_mode(Mode::Literal(literal, read + 1));
            return Ok(true);
        }
        self.place_value(literal.value())?;
        Ok(true)
    }
}

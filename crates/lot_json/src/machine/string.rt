//! Reading a string that is a value.

ghost use Rattle.std.specs.Prelude.{◌≡◌, ◌<◌, IfOk, OnOk, length, slice_index};

use crate::Json;
use crate::machine::{Machine, Mode};
use crate::progress::Progress;
use crate::tokens::{TextToken, string_without_escapes};
use lot_types::{Memory, Text};
use std::mem;

impl Machine {
    ghost use Rattle.lot_json.specs.declared.tree.json.Json.TheVariants as tree;
    ghost use Rattle.lot_json.specs.declared.tokens.text_token.TextToken.{TextToken};
    ghost use Rattle.lot_json.specs.Bytes.{quote};
    ghost use Rattle.lot_json.specs.TextRest.{text_of};
    ghost use Rattle.lot_json.specs.Pending.{stack_of, state_of};
    ghost use Rattle.lot_json.specs.Residual.{Advances, PlacesValue};

    /// Reads the beginning of a string: to its closing quotation mark if it has no escape and ends here, and its
    /// opening quotation mark alone otherwise. Gives the number of bytes.
    pub(crate) fn begin_string(&mut self, bytes: &[u8]) -> Result<usize, Memory>
        requires mode { self.old.mode ≡ Mode.Value }
        requires some { 0 < length bytes.now }
        requires quote { slice_index bytes.now 0 ≡ quote }
        ensures { IfOk result (λ n. Advances (Progress.Continues n) bytes.now
            (state_of self.old) (state_of self.new)) }
    {
        match string_without_escapes(&bytes[1..]) {
            Some(text) => {
                self.place_value(Json::Text(Text::of(self.alloc, text)?))?;
                Ok(text.len() + 2)
            }
            None => {
                self.set_mode(Mode::Text(TextToken::new(self.alloc)));
                Ok(1)
            }
        }
    }

    /// Reads the rest of a string: to its closing quotation mark if it ends here, and all bytes otherwise.
    pub(crate) fn read_string(&mut self, bytes: &[u8]) -> Result<Progress, Memory>
        requires { 0 < length bytes.now }
        ensures { (token : TextToken) → self.old.mode ≡ Mode.Text token
            → IfOk result (λ p. Advances p bytes.now (state_of self.old) (state_of self.new)) }
    {
        let Mode::Text(token) = &mut self.mode else {
            return Ok(Progress::Rejects(0));
        };
        match token.take_prefix(bytes)? {
            Progress::Continues(read) => Ok(Progress::Continues(read)),
            Progress::Ends(read) => {
                self.end_string()?;
                Ok(Progress::Continues(read + 1))
            }
            Progress::Rejects(read) => Ok(Progress::Rejects(read)),
        }
    }

    /// Ends a string at its closing quotation mark.
    fn end_string(&mut self) -> Result<(), Memory>
        ensures { (token : TextToken) → self.old.mode ≡ Mode.Text token → OnOk result
            (PlacesValue (tree.Text (text_of token)) (stack_of self.old) (state_of self.new)) }
    {
        let Mode::Text(token) = mem::replace(&mut self.mode, Mode::Value) else {
            return Ok(());
        };
        self.place_value(Json::Text(token.finish()))?;
        Ok(())
    }
}

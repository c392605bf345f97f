//! Reading a member of an object from its name to its `:`.

ghost use Rattle.std.specs.Prelude.{◌≡◌, ◌<◌, IfOk, length, slice_index};

use crate::machine::{Container, Machine, Mode, is_white_space};
use crate::progress::Progress;
use crate::tokens::{TextToken, string_without_escapes};
use lot_types::{Memory, Text};
use std::mem;

impl Machine {
    ghost use Rattle.lot_json.specs.declared.tokens.text_token.TextToken.{TextToken};
    ghost use Rattle.lot_json.specs.Bytes.{quote};
    ghost use Rattle.lot_json.specs.TextRest.{text_of};
    ghost use Rattle.lot_json.specs.Pending.{with_name, state_in, stack_of, state_of};
    ghost use Rattle.lot_json.specs.Residual.{Advances, ReadsByte};

    /// Reads the beginning of a name of the innermost object, whatever was read last: to its closing quotation mark
    /// if it has no escape and ends here, and its opening quotation mark alone otherwise. Gives the number of bytes.
    pub(crate) fn begin_name(&mut self, bytes: &[u8]) -> Result<usize, Memory>
        requires some { 0 < length bytes.now }
        requires quote { slice_index bytes.now 0 ≡ quote }
        ensures { IfOk result (λ n. Advances (Progress.Continues n) bytes.now
            (state_in Mode.NextMember (stack_of self.old)) (state_of self.new)) }
    {
        match string_without_escapes(&bytes[1..]) {
            Some(name) => {
                self.set_name(Text::of(self.alloc, name)?);
                self.set_mode(Mode::Colon);
                Ok(name.len() + 2)
            }
            None => {
                self.set_mode(Mode::Name(TextToken::new(self.alloc)));
                Ok(1)
            }
        }
    }

    /// Reads the rest of a name: to its closing quotation mark if it ends here, and all bytes otherwise.
    pub(crate) fn read_name(&mut self, bytes: &[u8]) -> Result<Progress, Memory>
        requires { 0 < length bytes.now }
        ensures { (token : TextToken) → self.old.mode ≡ Mode.Name token
            → IfOk result (λ p. Advances p bytes.now (state_of self.old) (state_of self.new)) }
    {
        let Mode::Name(token) = &mut self.mode else {
            return Ok(Progress::Rejects(0));
        };
        match token.take_prefix(bytes)? {
            Progress::Continues(read) => Ok(Progress::Continues(read)),
            Progress::Ends(read) => {
                self.end_name();
                Ok(Progress::Continues(read + 1))
            }
            Progress::Rejects(read) => Ok(Progress::Rejects(read)),
        }
    }

    /// Ends a name at its closing quotation mark.
    fn end_name(&mut self)
        ensures mode { (token : TextToken) → self.old.mode ≡ Mode.Name token
            → self.new.mode ≡ Mode.Colon }
        ensures stack { (token : TextToken) → self.old.mode ≡ Mode.Name token
            → stack_of self.new ≡ with_name (text_of token) (stack_of self.old) }
    {
        let Mode::Name(token) = mem::replace(&mut self.mode, Mode::Colon) else {
            return;
        };
        self.set_name(token.finish());
    }

    /// Sets the name of the innermost object's next member.
    fn set_name(&mut self, name: Text)
        ensures mode { self.new.mode ≡ self.old.mode }
        ensures stack { stack_of self.new ≡ with_name name (stack_of self.old) }
    {
        let Some(inner) = self.stack.last_mut() else {
            return;
        };
        if let Container::Object(_, old) = inner {
            *old = name;
        }
    }

    /// Reads white space or a `:`, after a name. False where the byte is another.
    pub(crate) fn read_colon(&mut self, c: u8) -> bool
        requires { self.old.mode ≡ Mode.Colon }
        ensures { ReadsByte result c (state_of self.old) (state_of self.new) }
    {
        if is_white_space(c) {
            return true;
        }
        if c != b':' {
            return false;
        }
        let Some(Container::Object(_, _)) = self.stack.last() else {
            return false;
        };
        self.set_mode(Mode::Value);
        true
    }
}

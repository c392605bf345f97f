//! Reading a value from its first byte on.

ghost use Rattle.std.specs.Prelude.{◌≡◌, ◌≢◌, ◌<◌, ◌≤◌, ◌∷◌, List, ℕ, IfOk, length};
ghost use Rattle.std.specs.Bool.{OnTrue, OnFalse};

use crate::machine::{Literal, Machine, Mode, is_white_space};
use crate::progress::Progress;
use crate::tokens::BoundedNumber;
use lot_types::Memory;

/// The most arrays and objects that may be open at once.
const MAX_OPEN_CONTAINERS: usize = 128;

impl Machine {
    ghost use Rattle.lot_json.specs.declared.tree.number.Number.{Number};
    ghost use Rattle.lot_json.specs.Bytes.{quote};
    ghost use Rattle.lot_json.specs.Grammar.{max_open_containers};
    ghost use Rattle.lot_json.specs.NumberToken.{IsNumberToken};
    ghost use Rattle.lot_json.specs.Pending.{stack_of, state_of};
    ghost use Rattle.lot_json.specs.Residual.{Advances, ReadsByte};

    /// Reads the beginning of a value: a string to its end if it has no escape and ends here, the bytes of a number and
    /// the byte after it, or one byte of another value.
    pub(crate) fn read_value(&mut self, bytes: &[u8]) -> Result<Progress, Memory>
        requires mode { self.old.mode ≡ Mode.Value }
        requires some { 0 < length bytes.now }
        ensures { IfOk result (λ p. Advances p bytes.now (state_of self.old) (state_of self.new)) }
    {
        let c = bytes[0];
        if c == b'"' {
            let read = self.begin_string(bytes)?;
            return Ok(Progress::Continues(read));
        }
        let mut number = BoundedNumber::new();
        if !number.begin(c) {
            return Ok(Progress::with_next(0, self.begin_other_value(c)));
        }
        let progress = self.continue_number(&mut number, bytes, 1)?;
        Ok(progress)
    }

    /// Reads white space, or the first byte of a value that is neither a string nor a number. False where no JSON text
    /// continues with the byte.
    fn begin_other_value(&mut self, c: u8) -> bool
        requires mode { self.old.mode ≡ Mode.Value }
        requires no_text { c ≢ quote }
        requires no_number { (t : List ℕ) (m : Number) → IsNumberToken (c ∷ t) m → ⊥ }
        ensures { ReadsByte result c (state_of self.old) (state_of self.new) }
    {
        if is_white_space(c) {
            return true;
        }
        match c {
            b'[' => self.open(Mode::Items),
            b'{' => self.open(Mode::Members),
            b'n' => {
                self.set_mode(Mode::Literal(Literal::Null, 1));
                true
            }
            b't' => {
                self.set_mode(Mode::Literal(Literal::True, 1));
                true
            }
            b'f' => {
                self.set_mode(Mode::Literal(Literal::False, 1));
                true
            }
            _ => false,
        }
    }

    /// Reads the opening bracket of an array or an object. False where as many are open as may be.
    fn open(&mut self, inner: Mode) -> bool
        ensures few { OnTrue result (length (stack_of self.old) < max_open_containers) }
        ensures mode { OnTrue result (self.new.mode ≡ inner) }
        ensures stack { OnTrue result (stack_of self.new ≡ stack_of self.old) }
        ensures many { OnFalse result (max_open_containers ≤ length (stack_of self.old)) }
    {
        if self.stack.len() >= MAX_OPEN_CONTAINERS {
            return false;
        }
        self.set_mode(inner);
        true
    }
}

//! Reading a number, and the byte after it.

ghost use Rattle.std.specs.Prelude.{◌≡◌, ◌<◌, ◌≤◌, ◌∷◌, List, ℕ, IfOk, length, take};

use crate::Json;
use crate::machine::{Machine, Mode};
use crate::progress::Progress;
use crate::tokens::BoundedNumber;
use lot_types::Memory;
use std::mem;

impl Machine {
    ghost use Rattle.lot_json.specs.declared.tree.number.Number.{Number};
    ghost use Rattle.lot_json.specs.declared.tokens.number_token.NumberToken.{NumberToken};
    ghost use Rattle.lot_json.specs.NumberRest.{NumberRest};
    ghost use Rattle.lot_json.specs.Pending.{State, at, stack_of, state_of};
    ghost use Rattle.lot_json.specs.Pending as pending;
    ghost use Rattle.lot_json.specs.Residual.{Advances, ReadsByte, Transition};

    /// Reads the rest of a number, and the byte after it if that is here.
    pub(crate) fn read_number(&mut self, bytes: &[u8]) -> Result<Progress, Memory>
        requires { 0 < length bytes.now }
        ensures { (token : NumberToken) → self.old.mode ≡ Mode.Number token
            → IfOk result (λ p. Advances p bytes.now (state_of self.old) (state_of self.new)) }
    {
        let Mode::Number(number) = mem::replace(&mut self.mode, Mode::Value) else {
            return Ok(Progress::Rejects(0));
        };
        let mut number = number;
        let progress = self.continue_number(&mut number, bytes, 0)?;
        Ok(progress)
    }

    /// Reads the rest of a number of which the first `read` bytes were read, and the byte after it if that is here. The
    /// number is moved into the machine only where the bytes end in it: each move of it costs more than a digit.
    #[inline(always)]
    pub(crate) fn continue_number(
        &mut self,
        number: &mut BoundedNumber,
        bytes: &[u8],
        read: usize,
    ) -> Result<Progress, Memory>
        requires some { 0 < length bytes.now }
        requires within { read ≤ length bytes.now }
        ensures { (start : State)
            → Transition (take read bytes.now) start (at (pending.Number number.old) (stack_of self.old))
            → IfOk result (λ p. Advances p bytes.now start (state_of self.new)) }
    {
        let read = number.take_from(bytes, read)?;
        if read == bytes.len() {
            let number = mem::replace(number, BoundedNumber::new());
            self.set_mode(Mode::Number(number));
            return Ok(Progress::Continues(read));
        }
        let Some(value) = number.value() else {
            return Ok(Progress::Rejects(read));
        };
        self.place_value(Json::Number(value))?;
        let continues = self.read_after_value(bytes[read])?;
        Ok(Progress::with_next(read, continues))
    }
}

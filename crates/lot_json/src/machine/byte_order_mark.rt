//! Reading a byte order mark, which may come before the root's value.

ghost use Rattle.std.specs.Prelude.{◌≡◌, ◌<◌, IfOk, length};

use crate::machine::{Machine, Mode};
use crate::progress::Progress;
use lot_types::Memory;

impl Machine {
    ghost use Rattle.lot_json.specs.Pending.{state_of};
    ghost use Rattle.lot_json.specs.Residual.{Advances, ReadsByte};

    /// Reads the first byte of a byte order mark, or what `read_value` reads.
    pub(crate) fn read_start(&mut self, bytes: &[u8]) -> Result<Progress, Memory>
        requires mode { self.old.mode ≡ Mode.Start }
        requires some { 0 < length bytes.now }
        ensures { IfOk result (λ p. Advances p bytes.now (state_of self.old) (state_of self.new)) }
    {
        if bytes[0] == 0xEF {
            self.set_mode(Mode::MarkSecond);
            return Ok(Progress::Continues(1));
        }
        self.set_mode(Mode::Value);
        let progress = self.read_value(bytes)?;
        Ok(progress)
    }

    /// Reads the second byte of a byte order mark. False where the byte is another.
    pub(crate) fn read_mark_second(&mut self, c: u8) -> bool
        requires { self.old.mode ≡ Mode.MarkSecond }
        ensures { ReadsByte result c (state_of self.old) (state_of self.new) }
    {
        if c != 0xBB {
            return false;
        }
        self.set_mode(Mode::MarkThird);
        true
    }

    /// Reads the third byte of a byte order mark. False where the byte is another.
    pub(crate) fn read_mark_third(&mut self, c: u8) -> bool
        requires { self.old.mode ≡ Mode.MarkThird }
        ensures { ReadsByte result c (state_of self.old) (state_of self.new) }
    {
        if c != 0xBF {
            return false;
        }
        self.set_mode(Mode::Value);
        true
    }
}

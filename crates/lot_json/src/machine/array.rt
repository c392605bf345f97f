//! Reading an array after its `[`.

ghost use Rattle.std.specs.Prelude.{◌≡◌, ◌<◌, IfOk, length};

use crate::Json;
use crate::machine::{Container, Machine, Mode, is_white_space};
use crate::progress::Progress;
use lot_types::{Memory, Seq};

impl Machine {
    ghost use Rattle.lot_json.specs.Pending.{state_of};
    ghost use Rattle.lot_json.specs.Residual.{Advances, ReadsByte};

    /// Reads white space, the `]` of an empty array, or the beginning of its first item.
    pub(crate) fn read_items(&mut self, bytes: &[u8]) -> Result<Progress, Memory>
        requires mode { self.old.mode ≡ Mode.Items }
        requires some { 0 < length bytes.now }
        ensures { IfOk result (λ p. Advances p bytes.now (state_of self.old) (state_of self.new)) }
    {
        let c = bytes[0];
        if is_white_space(c) {
            return Ok(Progress::Continues(1));
        }
        if c == b']' {
            self.place_value(Json::Items(Seq::new(self.alloc)))?;
            return Ok(Progress::Continues(1));
        }
        self.push_container(Container::Array(Seq::new(self.alloc)))?;
        self.set_mode(Mode::Value);
        let progress = self.read_value(bytes)?;
        Ok(progress)
    }

    /// Reads white space, a `,` or the `]`, after an item. False where the byte is another.
    #[inline(always)]
    pub(crate) fn read_after_item(&mut self, c: u8) -> Result<bool, Memory>
        requires { self.old.mode ≡ Mode.AfterItem }
        ensures { IfOk result (λ continues. ReadsByte continues c
            (state_of self.old) (state_of self.new)) }
    {
        if is_white_space(c) {
            return Ok(true);
        }
        match c {
            b',' => {
                let Some(Container::Array(_)) = self.stack.last() else {
                    return Ok(false);
                };
                self.set_mode(Mode::Value);
                Ok(true)
            }
            b']' => {
                let Some(Container::Array(items)) = self.stack.pop() else {
                    return Ok(false);
                };
                self.place_value(Json::Items(items))?;
                Ok(true)
            }
            _ => Ok(false),
        }
    }
}

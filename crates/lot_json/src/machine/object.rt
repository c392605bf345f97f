//! Reading an object after its `{`, up to the names of its members.

ghost use Rattle.std.specs.Prelude.{◌≡◌, ◌<◌, IfOk, length};

use crate::machine::{Container, Machine, Mode, is_white_space};
use crate::progress::Progress;
use crate::{Json, JsonMembers};
use lot_types::{Memory, Seq, Text};

impl Machine {
    ghost use Rattle.lot_json.specs.Pending.{state_of};
    ghost use Rattle.lot_json.specs.Residual.{Advances, ReadsByte};

    /// Reads white space, the `}` of an empty object, or the beginning of its first name.
    pub(crate) fn read_members(&mut self, bytes: &[u8]) -> Result<Progress, Memory>
        requires mode { self.old.mode ≡ Mode.Members }
        requires some { 0 < length bytes.now }
        ensures { IfOk result (λ p. Advances p bytes.now (state_of self.old) (state_of self.new)) }
    {
        let c = bytes[0];
        if is_white_space(c) {
            return Ok(Progress::Continues(1));
        }
        match c {
            b'"' => {
                self.push_container(Container::Object(
                    Seq::new(self.alloc),
                    Text::new(self.alloc),
                ))?;
                let read = self.begin_name(bytes)?;
                Ok(Progress::Continues(read))
            }
            b'}' => {
                self.place_value(Json::Members(JsonMembers::of(Seq::new(self.alloc))))?;
                Ok(Progress::Continues(1))
            }
            _ => Ok(Progress::Rejects(0)),
        }
    }

    /// Reads white space or the beginning of a name, after a `,`.
    pub(crate) fn read_next_member(&mut self, bytes: &[u8]) -> Result<Progress, Memory>
        requires mode { self.old.mode ≡ Mode.NextMember }
        requires some { 0 < length bytes.now }
        ensures { IfOk result (λ p. Advances p bytes.now (state_of self.old) (state_of self.new)) }
    {
        let c = bytes[0];
        if is_white_space(c) {
            return Ok(Progress::Continues(1));
        }
        if c != b'"' {
            return Ok(Progress::Rejects(0));
        }
        let read = self.begin_name(bytes)?;
        Ok(Progress::Continues(read))
    }

    /// Reads white space, a `,` or the `}`, after a member. False where the byte is another.
    pub(crate) fn read_after_member(&mut self, c: u8) -> Result<bool, Memory>
        requires { self.old.mode ≡ Mode.AfterMember }
        ensures { IfOk result (λ continues. ReadsByte continues c
            (state_of self.old) (state_of self.new)) }
    {
        if is_white_space(c) {
            return Ok(true);
        }
        match c {
            b',' => {
                self.set_mode(Mode::NextMember);
                Ok(true)
            }
            b'}' => {
                let Some(Container::Object(members, _)) = self.stack.pop() else {
                    return Ok(false);
                };
                self.place_value(Json::Members(JsonMembers::of(members)))?;
                Ok(true)
            }
            _ => Ok(false),
        }
    }
}

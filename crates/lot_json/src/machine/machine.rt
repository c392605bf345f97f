ghost use Rattle.std.specs.Prelude.{◌≡◌, ◌↔◌, ◌<◌, [], ◌∷◌, ℕ, List, IfSome, IfNone, IfOk, OnOk, length};

use crate::Json;
use crate::machine::{Container, Mode, is_white_space};
use crate::progress::Progress;
use lot_types::{Memory, Text};
use std::alloc::Global;
use std::mem;

/// A reader of one JSON text, with no recursion: what is open is on a stack.
#[derive(Drop)]
pub(crate) struct Machine {
    pub(crate) alloc: Global,
    /// What comes next.
    pub(crate) mode: Mode,
    /// The arrays and objects that are open, the innermost last.
    pub(crate) stack: Vec<Container>,
}

impl Machine {
    ghost use Rattle.lot_json.specs.declared.tree.json.Json.{Json};
    ghost use Rattle.lot_json.specs.Grammar as grammar;
    ghost use Rattle.lot_json.specs.Pending.{stack_of, state_of};
    ghost use Rattle.lot_json.specs.Residual.{Remaining, CanEnd, Advances, ReadsByte, PlacesValue, IsAfterValue};

    /// A machine that has read nothing.
    pub(crate) fn new(alloc: Global) -> Machine
        ensures { (r : List ℕ) (x : Json) → grammar.JsonText r x ↔ Remaining (state_of result) r x }
    {
        Machine {
            alloc,
            mode: Mode::Start,
            stack: Vec::new(alloc),
        }
    }

    /// Reads a prefix of the bytes, at least one byte where a JSON text continues with the first. After a rejection, or
    /// for want of memory, the machine may only be dropped. It never ends by itself, since white space may follow.
    pub(crate) fn advance(&mut self, bytes: &[u8]) -> Result<Progress, Memory>
        requires { 0 < length bytes.now }
        ensures { IfOk result (λ p. Advances p bytes.now (state_of self.old) (state_of self.new)) }
    {
        let c = bytes[0];
        match &self.mode {
            Mode::Start => self.read_start(bytes),
            Mode::MarkSecond => Ok(Progress::with_next(0, self.read_mark_second(c))),
            Mode::MarkThird => Ok(Progress::with_next(0, self.read_mark_third(c))),
            Mode::Value => self.read_value(bytes),
            Mode::Items => self.read_items(bytes),
            Mode::AfterItem => Ok(Progress::with_next(0, self.read_after_item(c)?)),
            Mode::Members => self.read_members(bytes),
            Mode::NextMember => self.read_next_member(bytes),
            Mode::Name(_) => self.read_name(bytes),
            Mode::Colon => Ok(Progress::with_next(0, self.read_colon(c))),
            Mode::AfterMember => Ok(Progress::with_next(0, self.read_after_member(c)?)),
            Mode::Text(_) => self.read_string(bytes),
            Mode::Number(_) => self.read_number(bytes),
            Mode::Literal(literal, read) => {
                let literal = *literal;
                let read = *read;
                Ok(Progress::with_next(0, self.read_literal(literal, read, c)?))
            }
            Mode::Done(_) => Ok(Progress::with_next(0, is_white_space(c))),
        }
    }

    /// The tree of the JSON text that was read. `None` where it cannot end here.
    pub(crate) fn finish(self) -> Option<Json>
        ensures whole { IfSome result (λ x. CanEnd (state_of self)
            → (y : Json) → Remaining (state_of self) [] y ↔ (y ≡ x)) }
        ensures part { IfNone result ((y : Json) → Remaining (state_of self) [] y → ⊥) }
    {
        let Machine { mode, stack, .. } = self;
        match mode {
            Mode::Done(x) => Some(x),
            Mode::Number(number) => {
                if !stack.is_empty() {
                    return None;
                }
                match number.value() {
                    Some(m) => Some(Json::Number(m)),
                    None => None,
                }
            }
            _ => None,
        }
    }

    /// Opens an array or an object within the innermost that is open.
    pub(crate) fn push_container(&mut self, inner: Container) -> Result<(), Memory>
        ensures mode { OnOk result (self.new.mode ≡ self.old.mode) }
        ensures stack { OnOk result (stack_of self.new ≡ inner ∷ stack_of self.old) }
    {
        self.stack.push(inner)?;
        Ok(())
    }

    /// Sets what is read next.
    #[inline(always)]
    pub(crate) fn set_mode(&mut self, next: Mode)
        ensures turned { self.new.mode ≡ next }
        ensures stack { stack_of self.new ≡ stack_of self.old }
    {
        self.mode = next;
    }

    /// Places a value that is complete: as the last item or member of the innermost array or object, or as the root.
    #[inline(always)]
    pub(crate) fn place_value(&mut self, value: Json) -> Result<(), Memory>
        ensures places { OnOk result (PlacesValue value (stack_of self.old) (state_of self.new)) }
        ensures after { OnOk result (IsAfterValue self.new.mode) }
    {
        let Some(inner) = self.stack.last_mut() else {
            self.set_mode(Mode::Done(value));
            return Ok(());
        };
        match inner {
            Container::Array(items) => {
                items.push(value)?;
                self.set_mode(Mode::AfterItem);
            }
            Container::Object(members, name) => {
                let name = mem::replace(name, Text::new(self.alloc));
                members.push((name, value))?;
                self.set_mode(Mode::AfterMember);
            }
        }
        Ok(())
    }

    /// Reads the byte after a value that was placed. False where no JSON text continues with it.
    #[inline(always)]
    pub(crate) fn read_after_value(&mut self, c: u8) -> Result<bool, Memory>
        requires { IsAfterValue self.old.mode }
        ensures { IfOk result (λ continues. ReadsByte continues c
            (state_of self.old) (state_of self.new)) }
    {
        match &self.mode {
            Mode::AfterItem => self.read_after_item(c),
            Mode::AfterMember => self.read_after_member(c),
            _ => Ok(is_white_space(c)),
        }
    }
}

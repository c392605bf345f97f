ghost use Rattle.std.specs.Prelude.{◌≡◌, ◌↔◌, ◌≤◌, ◌<◌, ◌+◌, ◌^◌, List, ℕ, IfOk, length, take};
ghost use Rattle.lot_json.specs.Characters.{Characters};

use crate::progress::Progress;
use crate::tokens::character::{Character, Taken};
use crate::tokens::unescaped::unescaped_prefix;
use lot_types::{Memory, Text};
use std::alloc::Global;

/// A string of which the opening quotation mark and some bytes after it were read.
#[derive(Drop)]
pub(crate) struct TextToken {
    /// The text of the whole characters that were read.
    text: Text,
    /// What was read of the next character.
    character: Character,
}

impl TextToken {
    ghost use Rattle.lot_json.specs.TextRest.{TextRest, CanEndText, TakesRun, TakesByte, TakesPrefix, text_of};

    /// A string of which only the opening quotation mark was read.
    pub(crate) fn new(alloc: Global) -> TextToken
        ensures begins { (t s : List ℕ) → Characters t s ↔ TextRest result t s }
        ensures can_end { CanEndText result }
    {
        TextToken {
            text: Text::new(alloc),
            character: Character::Nothing,
        }
    }

    /// Takes the bytes before the closing quotation mark, or all of them where it is not among them. After a
    /// rejection, or for want of memory, the token may only be dropped.
    pub(crate) fn take_prefix(&mut self, bytes: &[u8]) -> Result<Progress, Memory>
        ensures { IfOk result (λ p. TakesPrefix bytes.now p self.old self.new) }
    {
        let mut at = 0;
        while at < bytes.len() {
            let run = self.take_unescaped(&bytes[at..])?;
            at += run;
            if at == bytes.len() {
                return Ok(Progress::Continues(at));
            }
            match self.take_byte(bytes[at], at)? {
                Progress::Continues(next) => at = next,
                Progress::Ends(end) => return Ok(Progress::Ends(end)),
                Progress::Rejects(end) => return Ok(Progress::Rejects(end)),
            }
        }
        Ok(Progress::Continues(at))
    }

    /// Takes the unescaped characters that the bytes begin with, and gives the number of their bytes: 0 within a
    /// character. For want of memory the token may only be dropped.
    fn take_unescaped(&mut self, bytes: &[u8]) -> Result<usize, Memory>
        ensures within { IfOk result (λ n. n ≤ length bytes.now) }
        ensures takes { IfOk result (λ n. TakesRun (take n bytes.now) self.old self.new) }
    {
        let Character::Nothing = self.character else {
            return Ok(0);
        };
        let run = unescaped_prefix(bytes);
        if run.is_empty() {
            return Ok(0);
        }
        self.text.append(run)?;
        Ok(run.len())
    }

    /// Takes one byte, after `at` bytes that were taken. For want of memory the token may only be dropped.
    fn take_byte(&mut self, c: u8, at: usize) -> Result<Progress, Memory>
        requires { at + 1 < 2 ^ 64 }
        ensures { IfOk result (λ p. TakesByte c at p self.old self.new) }
    {
        match self.character.take(c) {
            Some(Taken::Part(character)) => {
                self.character = character;
                Ok(Progress::Continues(at + 1))
            }
            Some(Taken::Whole(character)) => {
                self.text.push(character)?;
                self.character = Character::Nothing;
                Ok(Progress::Continues(at + 1))
            }
            Some(Taken::Quote) => Ok(Progress::Ends(at)),
            None => Ok(Progress::Rejects(at)),
        }
    }

    /// The text of the string. The closing quotation mark was read.
    pub(crate) fn finish(self) -> Text
        ensures { result ≡ text_of self }
    {
        self.text
    }
}

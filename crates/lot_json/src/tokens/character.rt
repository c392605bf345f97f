ghost use Rattle.std.specs.Prelude.{◌≡◌, ◌∷◌, ℕ, List};
ghost use Rattle.lot_json.specs.Bytes.{backslash};
ghost use Rattle.lot_json.specs.Characters.{Characters};
ghost use Rattle.lot_json.specs.Character.{CharacterRest, LeadsTo};

use crate::tokens::byte_sequence::ByteSequence;
use crate::tokens::code_unit::{CodeUnit, DigitPlace};
use crate::tokens::high_surrogate::HighSurrogate;

/// The bytes of a string's next character that were read.
#[derive(Clone, Copy)]
pub(crate) enum Character {
    /// None.
    Nothing,
    /// A backslash.
    Backslash,
    /// `\u` and some of its digits.
    Unit(CodeUnit),
    /// The escape of a high surrogate.
    High(HighSurrogate),
    /// The escape of a high surrogate, and a backslash.
    HighBackslash(HighSurrogate),
    /// The escape of a high surrogate, `\u`, and some digits of the low surrogate.
    Low { high: HighSurrogate, low: CodeUnit },
    /// The first bytes of a character in UTF-8.
    Bytes(ByteSequence),
}

/// What the bytes of a string's next character are, with one byte more.
#[derive(Clone, Copy)]
pub(crate) enum Taken {
    /// The first bytes of the character.
    Part(Character),
    /// The whole character.
    Whole(char),
    /// The closing quotation mark, in place of a character.
    Quote,
}

impl Character {
    /// Takes one byte more. `None` where no string continues with it.
    pub(crate) fn take(self, c: u8) -> Option<Taken>
        ensures { LeadsTo (λ (t x : List ℕ). CharacterRest self (c ∷ t) x) result }
    {
        match self {
            Character::Nothing => begin(c),
            Character::Backslash => take_escape(c),
            Character::Unit(unit) => unit.take_digit(c),
            Character::High(high) => high.take_backslash(c),
            Character::HighBackslash(high) => high.take_u(c),
            Character::Low { high, low } => high.take_low_digit(low, c),
            Character::Bytes(sequence) => sequence.take(c),
        }
    }
}

/// Takes the first byte of a character, or the closing quotation mark.
fn begin(c: u8) -> Option<Taken>
    ensures { LeadsTo (λ (t x : List ℕ). Characters (c ∷ t) x) result }
{
    match c {
        b'"' => Some(Taken::Quote),
        b'\\' => Some(Taken::Part(Character::Backslash)),
        0x00..=0x1F => None,
        0x20..=0x7F => Some(Taken::Whole(c as char)),
        _ => ByteSequence::begin(c),
    }
}

/// Takes the byte after a backslash.
fn take_escape(c: u8) -> Option<Taken>
    ensures { LeadsTo (λ (t x : List ℕ). Characters (backslash ∷ c ∷ t) x) result }
{
    match c {
        b'"' => Some(Taken::Whole('"')),
        b'\\' => Some(Taken::Whole('\\')),
        b'/' => Some(Taken::Whole('/')),
        b'b' => Some(Taken::Whole('\x08')),
        b'f' => Some(Taken::Whole('\x0C')),
        b'n' => Some(Taken::Whole('\n')),
        b'r' => Some(Taken::Whole('\r')),
        b't' => Some(Taken::Whole('\t')),
        b'u' => Some(Taken::Part(Character::Unit(CodeUnit {
            value: 0,
            next: DigitPlace::First,
        }))),
        _ => None,
    }
}

ghost use Rattle.std.specs.Prelude.{◌≡◌, ◌<◌, ℕ, IfSome, IfNone};
ghost use Rattle.lot_json.specs.Characters.{IsHexDigit};
ghost use Rattle.lot_json.specs.CodeUnit.{values_before};

use crate::tokens::character::{Character, Taken};
use crate::tokens::high_surrogate::HighSurrogate;

/// A code unit of UTF-16 of which some hexadecimal digits were read.
#[derive(Clone, Copy)]
pub(crate) struct CodeUnit {
    /// The number of the digits that were read.
    pub(crate) value: u16,
    /// The place of the digit that comes next.
    pub(crate) next: DigitPlace,
    ghost short: { value < 4096 },
    ghost in_range: { value < values_before next },
}

/// A place among the four hexadecimal digits of a code unit.
#[derive(Clone, Copy)]
pub(crate) enum DigitPlace {
    First,
    Second,
    Third,
    Fourth,
}

impl CodeUnit {
    ghost use Rattle.std.specs.Prelude.{◌+◌, ◌*◌, ◌∷◌, List};
    ghost use Rattle.lot_json.specs.CodeUnit.{UnitRest, AfterUnit, digits_left, digits_after};
    ghost use Rattle.lot_json.specs.Character.{CharacterRest, LeadsTo};

    /// Takes a digit of a code unit that no high surrogate comes before.
    pub(crate) fn take_digit(self, c: u8) -> Option<Taken>
        ensures { LeadsTo (λ (t x : List ℕ). UnitRest (digits_left self.next) self.value
            (c ∷ t) x) result }
    {
        match hex_digit(c) {
            Some(digit) => CodeUnit::with_digits(self.next, self.value * 16 + digit),
            None => None,
        }
    }

    /// The code unit whose digits up to this place have the value. `None` where they are those of a low surrogate.
    fn with_digits(place: DigitPlace, value: u16) -> Option<Taken>
        requires { value < 16 * values_before place }
        ensures { LeadsTo (λ (t x : List ℕ). UnitRest (digits_after place) value t x) result }
    {
        match place {
            DigitPlace::First => Some(Taken::Part(Character::Unit(CodeUnit {
                value,
                next: DigitPlace::Second,
            }))),
            DigitPlace::Second => {
                // From 0xDC to 0xDF.
                if value / 4 == 0xDC / 4 {
                    return None;
                }
                Some(Taken::Part(Character::Unit(CodeUnit {
                    value,
                    next: DigitPlace::Third,
                })))
            }
            DigitPlace::Third => {
                // From 0xDC0 to 0xDFF.
                if value / 64 == 0xDC0 / 64 {
                    return None;
                }
                Some(Taken::Part(Character::Unit(CodeUnit {
                    value,
                    next: DigitPlace::Fourth,
                })))
            }
            DigitPlace::Fourth => CodeUnit::end(value),
        }
    }

    /// The character of a code unit that no high surrogate comes before, or the beginning of a pair.
    fn end(unit: u16) -> Option<Taken>
        ensures { LeadsTo (λ (t x : List ℕ). AfterUnit unit t x) result }
    {
        match unit {
            0xD800..=0xDBFF => Some(Taken::Part(Character::High(HighSurrogate { unit }))),
            _ => match char::from_u32(u32::from(unit)) {
                Some(character) => Some(Taken::Whole(character)),
                None => None,
            },
        }
    }
}

/// The value of a hexadecimal digit of either case. `None` for another byte.
pub(crate) fn hex_digit(c: u8) -> Option<u16>
    ensures digit { IfSome result (IsHexDigit c) }
    ensures small { IfSome result (λ v. v < 16) }
    ensures other { IfNone result ((v : ℕ) → IsHexDigit c v → ⊥) }
{
    match c {
        b'0'..=b'9' => Some(u16::from(c - b'0')),
        b'A'..=b'F' => Some(u16::from(c - b'A' + 10)),
        b'a'..=b'f' => Some(u16::from(c - b'a' + 10)),
        _ => None,
    }
}

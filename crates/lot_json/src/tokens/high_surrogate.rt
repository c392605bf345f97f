ghost use Rattle.std.specs.Prelude.{◌≡◌};
ghost use Rattle.lot_json.specs.Characters.{IsHighSurrogate, IsLowSurrogate};

use crate::tokens::character::{Character, Taken};
use crate::tokens::code_unit::{CodeUnit, DigitPlace, hex_digit};

/// The first code unit of a surrogate pair, from 0xD800 to 0xDBFF.
#[derive(Clone, Copy)]
pub(crate) struct HighSurrogate {
    pub(crate) unit: u16,
    ghost in_range: { IsHighSurrogate unit },
}

impl HighSurrogate {
    ghost use Rattle.std.specs.Prelude.{◌+◌, ◌*◌, ◌<◌, ◌∷◌, ℕ, List};
    ghost use Rattle.lot_json.specs.Bytes.{backslash};
    ghost use Rattle.lot_json.specs.Characters.{pair_code};
    ghost use Rattle.lot_json.specs.CodeUnit.{LowRest, AfterHigh, AfterLow, digits_left, digits_after, values_before};
    ghost use Rattle.lot_json.specs.Character.{CharacterRest, LeadsTo};

    /// Takes the backslash after the escape of a high surrogate.
    pub(crate) fn take_backslash(self, c: u8) -> Option<Taken>
        ensures { LeadsTo (λ (t x : List ℕ). AfterHigh self.unit (c ∷ t) x) result }
    {
        if c == b'\\' {
            Some(Taken::Part(Character::HighBackslash(self)))
        } else {
            None
        }
    }

    /// Takes the `u` after the escape of a high surrogate and a backslash.
    pub(crate) fn take_u(self, c: u8) -> Option<Taken>
        ensures { LeadsTo (λ (t x : List ℕ). AfterHigh self.unit (backslash ∷ c ∷ t) x) result }
    {
        if c == b'u' {
            Some(Taken::Part(Character::Low {
                high: self,
                low: CodeUnit {
                    value: 0,
                    next: DigitPlace::First,
                },
            }))
        } else {
            None
        }
    }

    /// Takes a digit of the code unit after a high surrogate.
    pub(crate) fn take_low_digit(self, low: CodeUnit, c: u8) -> Option<Taken>
        ensures { LeadsTo (λ (t x : List ℕ). LowRest self.unit (digits_left low.next) low.value
            (c ∷ t) x) result }
    {
        match hex_digit(c) {
            Some(digit) => self.with_low_digits(low.next, low.value * 16 + digit),
            None => None,
        }
    }

    /// The code unit after a high surrogate whose digits up to this place have the value. `None` where they are not
    /// those of a low surrogate.
    fn with_low_digits(self, place: DigitPlace, value: u16) -> Option<Taken>
        requires { value < 16 * values_before place }
        ensures { LeadsTo (λ (t x : List ℕ). LowRest self.unit (digits_after place) value
            t x) result }
    {
        match place {
            DigitPlace::First => match value {
                0xD => Some(Taken::Part(Character::Low {
                    high: self,
                    low: CodeUnit {
                        value,
                        next: DigitPlace::Second,
                    },
                })),
                _ => None,
            },
            DigitPlace::Second => match value {
                0xDC..=0xDF => Some(Taken::Part(Character::Low {
                    high: self,
                    low: CodeUnit {
                        value,
                        next: DigitPlace::Third,
                    },
                })),
                _ => None,
            },
            DigitPlace::Third => match value {
                0xDC0..=0xDFF => Some(Taken::Part(Character::Low {
                    high: self,
                    low: CodeUnit {
                        value,
                        next: DigitPlace::Fourth,
                    },
                })),
                _ => None,
            },
            DigitPlace::Fourth => self.end_low(value),
        }
    }

    /// The character of a high surrogate and the code unit after it. `None` where that is no low surrogate.
    fn end_low(self, unit: u16) -> Option<Taken>
        ensures { LeadsTo (λ (t x : List ℕ). AfterLow self.unit unit t x) result }
    {
        match unit {
            0xDC00..=0xDFFF => Some(Taken::Whole(self.join(unit))),
            _ => None,
        }
    }

    /// The character of the pair with this low surrogate, from U+10000 on.
    fn join(self, low: u16) -> char
        requires { IsLowSurrogate low }
        ensures { result ≡ pair_code self.unit low }
    {
        let high = u32::from(self.unit - 0xD800);
        let code = 0x1_0000 + high * 0x400 + u32::from(low - 0xDC00);
        match char::from_u32(code) {
            Some(c) => c,
            None => unreachable!(),
        }
    }
}

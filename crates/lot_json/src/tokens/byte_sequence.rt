ghost use Rattle.std.specs.Prelude.{◌≡◌, ◌+◌, ◌-◌, ◌<◌, ◌≤◌};
ghost use Rattle.std.specs.Str.Lossy.{second_byte_min, second_byte_max};
ghost use Rattle.lot_json.specs.ByteSequence.{AreScalar, first_continuation, last_continuation, values_after, with_bits};

use crate::tokens::character::{Character, Taken};

/// The first bytes of a character in UTF-8 by RFC 3629. After the next byte only bytes of the form 10xxxxxx follow.
#[derive(Clone, Copy)]
pub(crate) struct ByteSequence {
    /// The bits of the character that were read, below 0x110000 / 64.
    pub(crate) bits: u32,
    /// The number of bytes that are still to come.
    pub(crate) left: BytesLeft,
    /// The least byte that may come next.
    pub(crate) least: u8,
    /// The greatest byte that may come next.
    pub(crate) most: u8,
    ghost short: { bits < 17408 },
    ghost continuation: { (first_continuation ≤ least) × (least ≤ most) × (most ≤ last_continuation) },
    ghost scalar: { AreScalar (values_after left) (with_bits bits least) (with_bits bits most) },
}

/// The number of bytes of a character in UTF-8 that are still to come.
#[derive(Clone, Copy)]
pub(crate) enum BytesLeft {
    One,
    Two,
    Three,
}

impl ByteSequence {
    ghost use Rattle.std.specs.Prelude.{◌*◌, ◌∷◌, ℕ, List};
    ghost use Rattle.std.specs.Char.{IsScalar};
    ghost use Rattle.lot_json.specs.Characters.{Characters, FollowedBy};
    ghost use Rattle.lot_json.specs.ByteSequence.{Continues, bytes_after};
    ghost use Rattle.lot_json.specs.Character.{CharacterRest, LeadsTo};

    /// Takes the first byte of a character of two to four bytes in UTF-8.
    pub(crate) fn begin(c: u8) -> Option<Taken>
        requires { first_continuation ≤ c }
        ensures { LeadsTo (λ (t x : List ℕ). Characters (c ∷ t) x) result }
    {
        match c {
            0x00..=0xC1 => None,
            0xC2..=0xDF => ByteSequence::begin_two(c),
            0xE0..=0xEF => ByteSequence::begin_three(c),
            0xF0..=0xF4 => ByteSequence::begin_four(c),
            _ => None,
        }
    }

    /// Takes a byte of a character in UTF-8 after its first.
    pub(crate) fn take(self, c: u8) -> Option<Taken>
        ensures { LeadsTo (λ (t x : List ℕ). Continues (bytes_after self.left)
            self.bits self.least self.most (c ∷ t) x) result }
    {
        if c < self.least {
            return None;
        }
        if self.most < c {
            return None;
        }
        let bits = self.bits * 64 + u32::from(c - 0x80);
        match self.left {
            BytesLeft::One => ByteSequence::end(bits),
            BytesLeft::Two => ByteSequence::expect_continuation(bits, BytesLeft::One),
            BytesLeft::Three => ByteSequence::expect_continuation(bits, BytesLeft::Two),
        }
    }

    /// Takes the first of two bytes in UTF-8.
    fn begin_two(c: u8) -> Option<Taken>
        requires least { 194 ≤ c }
        requires most { c < 224 }
        ensures { LeadsTo (λ (t x : List ℕ). Characters (c ∷ t) x) result }
    {
        Some(Taken::Part(Character::Bytes(ByteSequence {
            bits: u32::from(c - 0xC0),
            left: BytesLeft::One,
            least: 0x80,
            most: 0xBF,
        })))
    }

    /// Takes the first of three bytes in UTF-8.
    fn begin_three(c: u8) -> Option<Taken>
        requires least { 224 ≤ c }
        requires most { c < 240 }
        ensures { LeadsTo (λ (t x : List ℕ). Characters (c ∷ t) x) result }
    {
        Some(Taken::Part(Character::Bytes(ByteSequence {
            bits: u32::from(c - 0xE0),
            left: BytesLeft::Two,
            least: second_least(c),
            most: second_most(c),
        })))
    }

    /// Takes the first of four bytes in UTF-8.
    fn begin_four(c: u8) -> Option<Taken>
        requires least { 240 ≤ c }
        requires most { c < 245 }
        ensures { LeadsTo (λ (t x : List ℕ). Characters (c ∷ t) x) result }
    {
        Some(Taken::Part(Character::Bytes(ByteSequence {
            bits: u32::from(c - 0xF0),
            left: BytesLeft::Three,
            least: second_least(c),
            most: second_most(c),
        })))
    }

    /// The bytes of a character up to one that any byte of the form 10xxxxxx may follow.
    fn expect_continuation(bits: u32, left: BytesLeft) -> Option<Taken>
        requires short { bits < 17408 }
        requires scalar { AreScalar (values_after left) (with_bits bits first_continuation)
            (with_bits bits last_continuation) }
        ensures { LeadsTo (λ (t x : List ℕ). Continues (bytes_after left) bits
            first_continuation last_continuation t x) result }
    {
        Some(Taken::Part(Character::Bytes(ByteSequence {
            bits,
            left,
            least: 0x80,
            most: 0xBF,
        })))
    }

    /// The character of this code. `None` where there is no such character.
    fn end(code: u32) -> Option<Taken>
        ensures { LeadsTo (λ (t x : List ℕ). IsScalar code × FollowedBy code t x) result }
    {
        match char::from_u32(code) {
            Some(character) => Some(Taken::Whole(character)),
            None => None,
        }
    }
}

/// The least byte that may follow the first byte of a character in UTF-8.
fn second_least(first: u8) -> u8
    ensures { result ≡ second_byte_min first }
{
    match first {
        0xE0 => 0xA0,
        0xF0 => 0x90,
        _ => 0x80,
    }
}

/// The greatest byte that may follow the first byte of a character in UTF-8.
fn second_most(first: u8) -> u8
    ensures { result ≡ second_byte_max first }
{
    match first {
        0xED => 0x9F,
        0xF4 => 0x8F,
        _ => 0xBF,
    }
}

ghost use Rattle.std.specs.Prelude.{◌≡◌, ◌↔◌, ◌<◌, ◌≤◌, ◌+◌, ◌-◌, ◌-ℤ◌, ◌^◌, pos, negsuc, [], ◌∷◌, List, ℕ, ℤ, Bool, IfSome, IfNone, IsTrue, false};
ghost use Rattle.std.specs.Bool.{OnTrue, OnFalse};
ghost use Rattle.lot_json.specs.declared.tree.number.Number.{Number};
ghost use Rattle.lot_json.specs.NumberToken.{IsNumberToken, IsDigit, number_of, scaled};

use crate::Number;
use lot_types::Fx;

/// A number token of which some bytes were read, in bounded space: its first fifteen digits from the first that is
/// not 0, and where the point is among them.
///
/// The number of the digits that were read is `lead * 10^(dropped - places)`, without those that were dropped. Fifteen
/// digits are enough: where one more was dropped, either the number is out of range, or its first digit below a
/// millionth is among those fifteen.
#[derive(Clone, Copy)]
pub(crate) struct NumberToken {
    minus: bool,
    place: NumberPlace,
    /// The digits that were kept.
    lead: u64,
    /// The number of digits of the whole part that were dropped.
    dropped: u64,
    /// The number of digits after the point that were kept.
    places: u64,
}

/// What the bytes that were read end with.
#[derive(Clone, Copy)]
enum NumberPlace {
    /// Nothing, or a minus.
    Start,
    /// The whole part `0`.
    Zero,
    /// A digit of a whole part that more digits may follow.
    Whole,
    /// The point.
    Point,
    /// A digit after the point.
    Fraction,
    /// The `e` or `E`.
    Exponent,
    /// The sign of the exponent.
    Sign { minus: bool },
    /// A digit of the exponent. The power is that of its digits, at most 2^64 - 1.
    Power { minus: bool, power: u64 },
}

/// The least number of fifteen digits: from it on further digits are dropped.
const MIN_FULL_LEAD: u64 = 100_000_000_000_000;

/// The largest magnitude in range: ten million, in millionths.
const MAX_MILLIONTHS: u64 = 10_000_000_000_000;

impl NumberToken {
    ghost use Rattle.lot_json.specs.declared.tokens.number_token.NumberPlace.TheVariants.{Power};
    ghost use Rattle.lot_json.specs.NumberRest.{NumberRest, CanEndNumber, HasRoom, IsNumberByte, IsFirstNumberByte, RestAt, ExponentRest, PowerRest, unread_number, completed_number, signed_power};
    ghost use Rattle.lot_json.specs.NumberSteps.{CountsWhole, CountsDecimal, Takes};

    /// A token of which nothing was read.
    #[inline(always)]
    pub(crate) fn new() -> NumberToken
        ensures { result ≡ unread_number false }
    {
        NumberToken {
            minus: false,
            place: NumberPlace::Start,
            lead: 0,
            dropped: 0,
            places: 0,
        }
    }

    /// Begins anew with this byte. False where no number token begins with it. The token is changed in place, since a
    /// copy of it costs more than a digit.
    #[inline(always)]
    pub(crate) fn begin(&mut self, c: u8) -> bool
        ensures begins { OnTrue result ((t : List ℕ) (m : Number)
            → IsNumberToken (c ∷ t) m ↔ NumberRest self.new t m) }
        ensures first { OnTrue result (IsFirstNumberByte c) }
        ensures can_end { OnTrue result (CanEndNumber self.new) }
        ensures room { HasRoom 1 self.new }
        ensures none { OnFalse result ((t : List ℕ) (m : Number) → IsNumberToken (c ∷ t) m → ⊥) }
    {
        let minus = c == b'-';
        self.minus = minus;
        self.place = NumberPlace::Start;
        self.lead = 0;
        self.dropped = 0;
        self.places = 0;
        if minus {
            return true;
        }
        self.take_first_digit(c)
    }

    /// Takes one byte more. False where it does not belong to the token, which then is unchanged.
    #[inline(always)]
    pub(crate) fn take(&mut self, c: u8) -> bool
        requires { HasRoom (2 ^ 63) self.old }
        ensures { Takes result (NumberRest self.old) c self.old self.new }
    {
        match self.place {
            NumberPlace::Start => self.take_first_digit(c),
            NumberPlace::Zero => self.take_after_whole(c),
            NumberPlace::Whole => self.take_whole(c),
            NumberPlace::Point => self.take_first_decimal(c),
            NumberPlace::Fraction => self.take_decimal(c),
            NumberPlace::Exponent => self.take_exponent_sign(c),
            NumberPlace::Sign { minus } => self.take_exponent_digit(c, minus, 0),
            NumberPlace::Power { minus, power } => self.take_exponent_digit(c, minus, power),
        }
    }

    /// The number of the token. `None` where it cannot end here.
    #[inline(always)]
    pub(crate) fn value(&self) -> Option<Number>
        ensures whole { IfSome result (λ n. (m : Number) → NumberRest self.now [] m ↔ (m ≡ n)) }
        ensures part { IfNone result ((m : Number) → NumberRest self.now [] m → ⊥) }
    {
        match self.place {
            NumberPlace::Zero | NumberPlace::Whole | NumberPlace::Fraction => Some(self.number(
                false, 0,
            )),
            NumberPlace::Power { minus, power } => Some(self.number(minus, power)),
            _ => None,
        }
    }

    /// Takes the first digit of the whole part.
    #[inline(always)]
    fn take_first_digit(&mut self, c: u8) -> bool
        requires { HasRoom (2 ^ 63) self.old }
        ensures { Takes result (RestAt NumberPlace.Start self.old) c self.old self.new }
    {
        if !is_digit(c) {
            return false;
        }
        self.count_whole(c);
        if c == b'0' {
            self.place = NumberPlace::Zero;
            return true;
        }
        self.place = NumberPlace::Whole;
        true
    }

    /// Takes a digit of the whole part, or what may follow that.
    #[inline(always)]
    fn take_whole(&mut self, c: u8) -> bool
        requires { HasRoom (2 ^ 63) self.old }
        ensures { Takes result (RestAt NumberPlace.Whole self.old) c self.old self.new }
    {
        if is_digit(c) {
            self.count_whole(c);
            self.place = NumberPlace::Whole;
            return true;
        }
        self.take_after_whole(c)
    }

    /// Takes what may follow the whole part: the point, or the letter of the exponent.
    #[inline(always)]
    fn take_after_whole(&mut self, c: u8) -> bool
        ensures { Takes result (RestAt NumberPlace.Zero self.old) c self.old self.new }
    {
        if c == b'.' {
            self.place = NumberPlace::Point;
            return true;
        }
        self.take_exponent_letter(c)
    }

    /// Takes the first digit after the point.
    fn take_first_decimal(&mut self, c: u8) -> bool
        requires { HasRoom (2 ^ 63) self.old }
        ensures { Takes result (RestAt NumberPlace.Point self.old) c self.old self.new }
    {
        if !is_digit(c) {
            return false;
        }
        self.count_decimal(c);
        self.place = NumberPlace::Fraction;
        true
    }

    /// Takes a further digit after the point, or the letter of the exponent.
    fn take_decimal(&mut self, c: u8) -> bool
        requires { HasRoom (2 ^ 63) self.old }
        ensures { Takes result (RestAt NumberPlace.Fraction self.old) c self.old self.new }
    {
        if is_digit(c) {
            self.count_decimal(c);
            self.place = NumberPlace::Fraction;
            return true;
        }
        self.take_exponent_letter(c)
    }

    /// Takes the letter of the exponent: `e` or `E`.
    fn take_exponent_letter(&mut self, c: u8) -> bool
        ensures { Takes result (ExponentRest self.old) c self.old self.new }
    {
        if c == b'e' || c == b'E' {
            self.place = NumberPlace::Exponent;
            return true;
        }
        false
    }

    /// Takes the sign of the exponent, or its first digit.
    fn take_exponent_sign(&mut self, c: u8) -> bool
        requires { HasRoom (2 ^ 63) self.old }
        ensures { Takes result (RestAt NumberPlace.Exponent self.old) c self.old self.new }
    {
        if c == b'+' {
            self.place = NumberPlace::Sign { minus: false };
            return true;
        }
        if c == b'-' {
            self.place = NumberPlace::Sign { minus: true };
            return true;
        }
        self.take_exponent_digit(c, false, 0)
    }

    /// Takes a digit of the exponent, after others whose number is `power`.
    fn take_exponent_digit(&mut self, c: u8, minus: bool, power: u64) -> bool
        requires { HasRoom (2 ^ 63) self.old }
        ensures { Takes result (RestAt (Power minus power) self.old) c self.old self.new }
    {
        if !is_digit(c) {
            return false;
        }
        // Read for the proof alone: a field that was read is known to fit its type.
        let _lead = self.lead;
        let power = power.saturating_mul(10).saturating_add(u64::from(c - b'0'));
        self.place = NumberPlace::Power { minus, power };
        true
    }

    /// Counts a digit of the whole part, and keeps it where fewer than fifteen are kept.
    #[inline(always)]
    fn count_whole(&mut self, c: u8)
        requires digit { IsDigit c }
        requires room { HasRoom (2 ^ 63) self.old }
        ensures { CountsWhole c self.old self.new }
    {
        if self.lead < MIN_FULL_LEAD {
            self.lead = 10 * self.lead + u64::from(c - b'0');
        } else {
            self.dropped += 1;
        }
    }

    /// Keeps a digit after the point where fewer than fifteen are kept.
    fn count_decimal(&mut self, c: u8)
        requires digit { IsDigit c }
        requires room { HasRoom (2 ^ 63) self.old }
        ensures { CountsDecimal c self.old self.new }
    {
        if self.lead < MIN_FULL_LEAD {
            self.lead = 10 * self.lead + u64::from(c - b'0');
            self.places += 1;
        }
    }

    /// The number of the token with this exponent, when it ends here.
    #[inline(always)]
    fn number(&self, minus: bool, power: u64) -> Number
        ensures { result ≡ completed_number self.now [] [] (signed_power minus power) }
    {
        let up = u128::from(self.dropped) + 6;
        let down = u128::from(self.places);
        let power = u128::from(power);
        if minus {
            return signed_number(self.minus, magnitude(self.lead, up, down + power));
        }
        signed_number(self.minus, magnitude(self.lead, up + power, down))
    }
}

/// Whether a byte is one of the digits `0` to `9`.
fn is_digit(c: u8) -> bool
    ensures { IsTrue result ↔ IsDigit c }
{
    c.is_ascii_digit()
}

/// `lead * 10^(up - down)` in millionths, rounded. Where that is out of range, the result is too.
#[inline(always)]
fn magnitude(lead: u64, up: u128, down: u128) -> u64
    ensures { (minus : Bool)
        → number_of minus result ≡ number_of minus (scaled lead (pos up -ℤ pos down)) }
{
    if down <= up {
        return multiply_by_power(lead, up - down);
    }
    divide_by_power(lead, down - up)
}

/// `lead * 10^by` in millionths. Where that is out of range, the result is too.
#[inline(always)]
fn multiply_by_power(lead: u64, by: u128) -> u64
    ensures { (minus : Bool) → number_of minus result ≡ number_of minus (scaled lead (pos by)) }
{
    if lead == 0 {
        return 0;
    }
    if by > 13 {
        return u64::MAX;
    }
    lead.saturating_mul(10_u64.pow(by as u32))
}

/// `lead / 10^by` in millionths, rounded to the nearest, a half upward.
fn divide_by_power(lead: u64, by: u128) -> u64
    requires { 0 < by }
    ensures { result ≡ scaled lead (negsuc (by - 1)) }
{
    if by > 20 {
        return 0;
    }
    let tenths = lead / 10_u64.pow((by - 1) as u32);
    tenths / 10 + u64::from(tenths % 10 >= 5)
}

/// The number of this magnitude in millionths and this sign.
#[inline(always)]
fn signed_number(minus: bool, size: u64) -> Number
    ensures { result ≡ number_of minus size }
{
    if size > MAX_MILLIONTHS {
        return Number::Beyond;
    }
    let size = size as i64;
    match Fx::new(if minus { -size } else { size }) {
        Some(x) => Number::Micro(x),
        None => Number::Beyond,
    }
}

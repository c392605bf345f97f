ghost use Rattle.std.specs.Prelude.{◌≡◌, ◌↔◌, ◌<◌, ◌≤◌, [], ◌∷◌, List, ℕ, IfSome, IfNone, IfOk, length, take, slice_index, false};
ghost use Rattle.std.specs.Bool.{OnTrue, OnFalse};
ghost use Rattle.lot_json.specs.declared.tree.number.Number.{Number};
ghost use Rattle.lot_json.specs.NumberToken.{IsNumberToken};

use crate::Number;
use crate::tokens::NumberToken;
use lot_types::Memory;
use std::marker::Model;

/// The most bytes of a number that are taken.
const MAX_NUMBER_BYTES: u64 = 1 << 62;

/// A number token of at most 2^62 bytes, with the number of bytes that were read. Contracts see the token.
#[derive(Drop)]
pub(crate) struct BoundedNumber {
    token: NumberToken,
    /// The number of bytes that were read.
    taken: u64,
}

impl Model for BoundedNumber {
    ghost use Rattle.lot_json.specs.declared.tokens.number_token.NumberToken.{NumberToken};
    ghost use Rattle.lot_json.specs.NumberRest.{HasRoom};

    ghost Value = { NumberToken };

    ghost view = { λ s. s.token };

    ghost invariant = { λ s. HasRoom s.taken s.token };
}

impl BoundedNumber {
    ghost use Rattle.lot_json.specs.declared.machine.container.Container.{Container};
    ghost use Rattle.lot_json.specs.Pending.{State, at};
    ghost use Rattle.lot_json.specs.Pending as pending;
    ghost use Rattle.lot_json.specs.Residual.{Transition};
    ghost use Rattle.lot_json.specs.NumberRest.{NumberRest, CanEndNumber, IsNumberByte, IsFirstNumberByte, unread_number};

    /// A number of which nothing was read.
    #[inline(always)]
    pub(crate) fn new() -> BoundedNumber
        ensures { result ≡ unread_number false }
    {
        BoundedNumber {
            token: NumberToken::new(),
            taken: 0,
        }
    }

    /// Begins anew with this byte. False where no number begins with it.
    #[inline(always)]
    pub(crate) fn begin(&mut self, c: u8) -> bool
        ensures begins { OnTrue result ((t : List ℕ) (m : Number)
            → IsNumberToken (c ∷ t) m ↔ NumberRest self.new t m) }
        ensures first { OnTrue result (IsFirstNumberByte c) }
        ensures can_end { OnTrue result (CanEndNumber self.new) }
        ensures none { OnFalse result ((t : List ℕ) (m : Number) → IsNumberToken (c ∷ t) m → ⊥) }
    {
        let begins = self.token.begin(c);
        self.taken = 1;
        begins
    }

    /// Takes the bytes from the offset `from` on that belong to the number, and gives the offset after them.
    #[inline(always)]
    pub(crate) fn take_from(&mut self, bytes: &[u8], from: usize) -> Result<usize, Memory>
        requires { from ≤ length bytes.now }
        ensures from { IfOk result (λ n. from ≤ n) }
        ensures within { IfOk result (λ n. n ≤ length bytes.now) }
        ensures steps { IfOk result (λ n. (start : State) (stack : List Container)
            → Transition (take from bytes.now) start (at (pending.Number self.old) stack)
            → Transition (take n bytes.now) start (at (pending.Number self.new) stack)) }
        ensures rejects { IfOk result (λ n. n < length bytes.now → (t : List ℕ) (m : Number)
            → NumberRest self.new (slice_index bytes.now n ∷ t) m → ⊥) }
    {
        let mut at = from;
        while at < bytes.len() {
            if !self.take(bytes[at])? {
                break;
            }
            at += 1;
        }
        Ok(at)
    }

    /// Takes one byte more. False where it does not belong to the number, which then is unchanged. A number of more
    /// than 2^62 bytes needs more memory than there is.
    #[inline(always)]
    pub(crate) fn take(&mut self, c: u8) -> Result<bool, Memory>
        ensures continues { IfOk result (λ belongs. OnTrue belongs ((t : List ℕ) (m : Number)
            → NumberRest self.old (c ∷ t) m ↔ NumberRest self.new t m)) }
        ensures byte { IfOk result (λ belongs. OnTrue belongs (IsNumberByte c)) }
        ensures can_end { IfOk result (λ belongs. OnTrue belongs (CanEndNumber self.new)) }
        ensures rejects { IfOk result (λ belongs. OnFalse belongs ((t : List ℕ) (m : Number)
            → NumberRest self.old (c ∷ t) m → ⊥)) }
        ensures same { IfOk result (λ belongs. OnFalse belongs (self.new ≡ self.old)) }
    {
        if self.taken >= MAX_NUMBER_BYTES {
            return Err(Memory);
        }
        let belongs = self.token.take(c);
        self.taken += 1;
        Ok(belongs)
    }

    /// The number that was read. `None` where it cannot end here.
    #[inline(always)]
    pub(crate) fn value(&self) -> Option<Number>
        ensures whole { IfSome result (λ n. (m : Number) → NumberRest self.now [] m ↔ (m ≡ n)) }
        ensures part { IfNone result ((m : Number) → NumberRest self.now [] m → ⊥) }
    {
        self.token.value()
    }
}

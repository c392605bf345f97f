ghost use Rattle.std.specs.Prelude.{◌≡◌, ◌++◌, [], List, ℕ, Err, IfOk, OnOk, IfErr};

use crate::machine::Machine;
use crate::progress::Progress;
use crate::{Json, JsonRefusal};
use lot_types::Memory;
use std::alloc::Global;

/// Reads one JSON text by RFC 8259 from its bytes, in pieces of any lengths: UTF-8, perhaps after a byte order mark,
/// with at most 128 arrays and objects open at once.
#[derive(Drop)]
pub struct Decoder {
    machine: Machine,
    /// The number of bytes that were read, at most 2^64 - 1.
    taken: u64,
    /// The first refusal.
    refusal: Option<JsonRefusal>,
}

impl Decoder {
    ghost use Rattle.lot_json.specs.declared.refusal.JsonRefusal.{JsonRefusal};
    ghost use Rattle.lot_json.specs.Viable.{IsViable};
    ghost use Rattle.lot_json.specs.Refusal.{IsOnlyTree, IsRefused, IsNoText};
    ghost use Rattle.lot_json.specs.Fed.{WasFed, HasRefused, Reads};

    /// A decoder that has read nothing.
    pub fn new(alloc: Global) -> Result<Decoder, Memory>
        ensures { IfOk result (λ decoder. WasFed decoder []) }
    {
        Ok(Decoder {
            machine: Machine::new(alloc),
            taken: 0,
            refusal: None,
        })
    }

    /// Reads the next bytes. Refuses them as soon as no JSON text begins with all bytes up to here, with the offset
    /// of the first byte that none continues with. After a refusal each call gives that same refusal.
    pub fn feed(&mut self, piece: &[u8]) -> Result<(), JsonRefusal>
        ensures fed { (b : List ℕ) → WasFed self.old b → WasFed self.new (b ++ piece.now) }
        ensures viable { OnOk result ((b : List ℕ) → WasFed self.old b
            → IsViable (b ++ piece.now)) }
        ensures refused { IfErr result (λ e. (b : List ℕ) → WasFed self.old b
            → IsRefused e (b ++ piece.now)) }
        ensures stops { IfErr result (HasRefused self.new) }
        ensures stopped { (e : JsonRefusal) → HasRefused self.old e → result ≡ Err e }
    {
        if let Some(refusal) = self.refusal {
            return Err(refusal);
        }
        match self.read(piece) {
            Ok(()) => Ok(()),
            Err(refusal) => {
                self.refusal = Some(refusal);
                Err(refusal)
            }
        }
    }

    /// The tree of the JSON text that was read. Refuses bytes that are not a whole JSON text, with the offset up to
    /// which they can become one.
    pub fn finish(self) -> Result<Json, JsonRefusal>
        ensures only { IfOk result (λ x. (b : List ℕ) → WasFed self b → IsOnlyTree b x) }
        ensures refused { IfErr result (λ e. (b : List ℕ) → WasFed self b → IsNoText e b) }
        ensures stopped { (e : JsonRefusal) → HasRefused self e → result ≡ Err e }
    {
        let Decoder {
            machine,
            taken,
            refusal,
        } = self;
        if let Some(refusal) = refusal {
            return Err(refusal);
        }
        match machine.finish() {
            Some(x) => Ok(x),
            None => Err(JsonRefusal::Syntax(taken)),
        }
    }

    /// Reads the next bytes, after others that were not refused.
    fn read(&mut self, piece: &[u8]) -> Result<(), JsonRefusal>
        ensures reads { OnOk result ((b : List ℕ) → Reads self.old.machine self.old.taken b
            → Reads self.new.machine self.new.taken (b ++ piece.now)) }
        ensures refused { IfErr result (λ e. (b : List ℕ) → Reads self.old.machine self.old.taken b
            → IsRefused e (b ++ piece.now)) }
        ensures same { self.new.refusal ≡ self.old.refusal }
    {
        let mut at = 0;
        while at < piece.len() {
            let progress = self.machine.advance(&piece[at..])?;
            match progress {
                Progress::Continues(read) => {
                    self.taken = self.taken.saturating_add(read as u64);
                    at += read;
                }
                // White space may always follow.
                Progress::Ends(_) => unreachable!(),
                Progress::Rejects(read) => {
                    return Err(JsonRefusal::Syntax(self.taken.saturating_add(read as u64)));
                }
            }
        }
        Ok(())
    }
}

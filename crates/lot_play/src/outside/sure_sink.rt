//! A sink in memory that never fails.
ghost use Rattle.std.specs.Prelude.{◌≡◌, ◌≤◌, [], ◌++◌, Some, length, take, IfOk, OnOk, OnErr, Err};
ghost use Rattle.lot_play.specs.Count.{Rose};
ghost use Rattle.lot_play.specs.Sink.{Gains};
ghost use Rattle.lot_play.specs.declared.outside.sink.SinkRefusal.TheVariants.{Failed};

use crate::outside::{Sink, SinkRefusal};
use lot_types::{Bytes, Memory};
use std::alloc::Global;
use std::marker::Model;

/// A sink in memory that takes whole pieces and never fails. Contracts see it as the bytes that it took.
#[derive(Drop)]
pub struct SureSink {
    taken: Bytes,
}

impl Model for SureSink {
    ghost use Rattle.std.specs.Prelude.{List, ℕ};

    ghost Value = { List ℕ };

    ghost view = { λ s. s.taken };
}

impl SureSink {
    /// Makes a sink that took nothing. It takes no memory.
    pub fn new(alloc: Global) -> SureSink
        ensures { result ≡ [] }
    {
        SureSink {
            taken: Bytes::new(alloc),
        }
    }

    /// Returns a reference to all bytes that were taken, in order.
    pub fn taken(&self) -> &[u8]
        ensures { result.now ≡ self.now }
    {
        self.taken.as_slice()
    }
}

impl Sink for SureSink {
    ghost state = { λ s. record { taken = Some s; faults = 0 } };

    /// Gains all bytes, or none for want of memory.
    fn write(&mut self, bytes: &[u8]) -> Result<usize, SinkRefusal>
        ensures whole { IfOk result (λ n. n ≡ length bytes.now) }
        ensures within { IfOk result (λ n. n ≤ length bytes.now) }
        ensures some { IfOk result (λ n. n ≡ 0 → bytes.now ≡ []) }
        ensures takes { IfOk result (λ n. self.new ≡ self.old ++ take n bytes.now) }
        ensures refused { OnErr result (self.new ≡ self.old) }
        ensures cause { result ≡ Err Failed → Rose 0 0 }
    {
        self.taken.append(bytes)?;
        Ok(bytes.len())
    }
}

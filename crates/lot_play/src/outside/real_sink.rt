//! Standard output.
ghost use Rattle.std.specs.Prelude.{◌≡◌, ◌≢◌, ◌≤◌, [], None, Some, Ok, Err, IfOk, MatchResult, length};
ghost use Rattle.lot_play.specs.Count.{Rose};
ghost use Rattle.lot_play.specs.RealSink.{IsWriteAnswer};
ghost use Rattle.lot_play.specs.declared.outside.sink.SinkRefusal.TheVariants as refusal;

use crate::outside::{Sink, SinkRefusal};
use std::io;

/// Standard output. What it took is not known to contracts.
#[derive(Drop)]
pub struct RealSink<R: Print + Drop> {
    rt: R,
    faults: u64,
}

impl<R: Print + Drop> RealSink<R> {
    /// Makes the sink of a runtime, with no fault.
    pub fn new(rt: R) -> RealSink<R>
        ensures { result.faults ≡ 0 }
    {
        RealSink { rt, faults: 0 }
    }
}

impl<R: Print + Drop> Sink for RealSink<R> {
    ghost state = { λ s. record { taken = None; faults = s.faults } };

    fn write(&mut self, bytes: &[u8]) -> Result<usize, SinkRefusal> {
        let answer = answer_of(self.rt.write_some(bytes), bytes);
        if answer.is_err() {
            self.faults = self.faults.saturating_add(1);
        }
        answer
    }
}

/// The answer of the sink to what the system answered to a write of these bytes: a short write is the length that was
/// written, and an error is a fault, as is a write that takes none of some bytes.
fn answer_of(written: io::Result<usize>, bytes: &[u8]) -> Result<usize, SinkRefusal>
    requires { IfOk written (λ n. n ≤ length bytes.now) }
    ensures { IsWriteAnswer written bytes.now result }
{
    match written {
        Ok(0) if !bytes.is_empty() => Err(SinkRefusal::Failed),
        Ok(n) => Ok(n),
        Err(_) => Err(SinkRefusal::Failed),
    }
}

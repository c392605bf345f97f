//! Where answers are written to.
ghost use Rattle.std.specs.Prelude.{◌≡◌, ◌≤◌, [], length, take, IfOk, OnErr, Err};
ghost use Rattle.lot_play.specs.Count.{Rose};
ghost use Rattle.lot_play.specs.Sink.{SinkState, Gains};
ghost use Rattle.lot_play.specs.declared.outside.sink.SinkRefusal.TheVariants as refusal;

use lot_types::Memory;
use thiserror::Error;

/// A place that takes bytes in order.
///
/// A sink counts its faults. What it took is known of a sink in memory, and not of standard output.
pub trait Sink {
    /// What the sink was written, and its faults. The count never falls, and stays at the last value of 64 bits.
    ghost state: { Self → SinkState };

    /// Gains the first bytes of `bytes`, and answers how many: none only where `bytes` is empty.
    ///
    /// A sink that can take none of them answers [`SinkRefusal::Failed`], or [`SinkRefusal::Memory`] for want of
    /// memory. A refused write took nothing.
    fn write(&mut self, bytes: &[u8]) -> Result<usize, SinkRefusal>
        ensures within { IfOk result (λ n. n ≤ length bytes.now) }
        ensures some { IfOk result (λ n. n ≡ 0 → bytes.now ≡ []) }
        ensures takes { IfOk result (λ n.
            Gains (state self.old) (state self.new) (take n bytes.now)) }
        ensures refused { OnErr result (Gains (state self.old) (state self.new) []) }
        ensures later { (state self.old).faults ≤ (state self.new).faults }
        ensures cause { result ≡ Err refusal.Failed
            → Rose (state self.old).faults (state self.new).faults };
}

/// Why a sink took none of the bytes.
#[derive(Clone, Copy, Debug, PartialEq, Eq, Error)]
pub enum SinkRefusal {
    /// The write failed, as on a full device or a closed pipe.
    #[error("the write failed")]
    Failed,
    /// Want of memory in the sink.
    #[error("out of memory")]
    Memory,
}

impl From<Memory> for SinkRefusal {
    ghost from_gives = { λ _ e. e ≡ refusal.Memory };

    fn from(_memory: Memory) -> SinkRefusal {
        SinkRefusal::Memory
    }
}

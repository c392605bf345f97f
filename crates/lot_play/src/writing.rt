//! Writing bytes to a sink to their end.
ghost use Rattle.std.specs.Prelude.{◌≡◌, ◌≤◌, OnOk, OnErr, Err};
ghost use Rattle.lot_play.specs.Count.{Rose};
ghost use Rattle.lot_play.specs.Sink.{Gains, GainsPrefix};
ghost use Rattle.lot_play.specs.declared.outside.sink.SinkRefusal.TheVariants.{Failed};

use crate::outside::{Sink, SinkRefusal};

/// Writes all bytes, in as many pieces as the sink takes. Where the sink refuses one, it took a prefix of the bytes.
pub fn write_all<K: Sink>(sink: &mut K, bytes: &[u8]) -> Result<(), SinkRefusal>
    ensures all { OnOk result (Gains (K.state sink.old) (K.state sink.new) bytes.now) }
    ensures prefix { OnErr result (GainsPrefix (K.state sink.old) (K.state sink.new) bytes.now) }
    ensures failed { result ≡ Err Failed
        → Rose (K.state sink.old).faults (K.state sink.new).faults }
    ensures later { (K.state sink.old).faults ≤ (K.state sink.new).faults }
{
    let mut at = 0;
    while at < bytes.len() {
        at += sink.write(&bytes[at..])?;
    }
    Ok(())
}

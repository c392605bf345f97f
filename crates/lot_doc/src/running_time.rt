//! The reader of the time of an animation.
ghost use Rattle.lot_read.specs.Members.{RowGives, SameMembers};
ghost use Rattle.lot_doc.specs.Root.{running_time_rows};

use lot_read::{Members, Moment};
use lot_types::{FaultCode, Refusal, Time};

/// The time of an animation, in millionths of a frame: from `ip`, included, to `op`, excluded.
#[derive(Clone, Copy)]
pub struct RunningTime {
    pub ip: Time,
    pub op: Time,
}

/// Reads from which frame on and up to which frame an animation runs. Where it does not end after its start the fault
/// is [`FaultCode::Order`] at `op`.
#[tactic(auto, using(lot_read::proofs::Faults::first_of_prefix), unfolding(crate::specs::Root::running_time_rows))]
pub fn read_running_time(members: &mut Members) -> Result<RunningTime, Refusal>
    ensures gives { RowGives result members.old members.new running_time_rows }
    ensures same { SameMembers members.old members.new }
{
    let ip = members.needed("ip", &Moment)?;
    let op = members.needed("op", &Moment)?;
    if op.get() <= ip.get() {
        return Err(members.refusal_at(FaultCode::Order, "op"));
    }
    Ok(RunningTime { ip, op })
}

//! The reader of documents.
ghost use Rattle.std.specs.Prelude.{IfOk};
ghost use Rattle.lot_types.specs.WellFormed.{IsWellFormed};
ghost use Rattle.lot_doc.specs.Build.{IsOutcome};
ghost use Rattle.lot_doc.specs.Root.{document};

use crate::root::RootRows;
use lot_json::{Json, Pointer};
use lot_read::{Object, Reader, SlotNames};
use lot_types::{Read, Refusal, Seq};
use std::alloc::Global;

/// Reads a document from its tree. The answer is the document with its uses of slots, its first fault in the order of
/// the tables of members, or want of memory. A tree that is no object is [`lot_types::FaultCode::Kind`] at the empty
/// pointer. Whether the references of the document hold is not tested.
///
/// Sizes and positions are in millionths of a pixel, and times in millionths of a frame. A member that is `null` is
/// absent, and one that no table names is not read.
pub fn read_doc(alloc: Global, j: &Json) -> Result<Read, Refusal>
    ensures outcome { IsOutcome result (document j.now) }
    ensures well_formed { IfOk result (λ r. IsWellFormed r) }
{
    let names = SlotNames::none(alloc);
    let mut at = Pointer::new(alloc)?;
    let mut uses = Seq::new(alloc);
    let reader = Object {
        rows: RootRows { names: &names },
    };
    let doc = reader.read(&mut at, j, &mut uses)?;
    Ok(Read { doc, uses })
}

//! What the program writes, and the status after it.
ghost use Rattle.std.specs.Prelude.{◌≡◌, [], IfOk};
ghost use Rattle.lot_play.specs.Output.{fault_answer, syntax_answer};

use crate::status::Status;
use lot_types::{Bytes, Fault, Memory};
use std::alloc::Global;

/// The bytes that are written, and the status with which the run ends after it.
#[derive(Drop)]
pub struct Answer {
    pub bytes: Bytes,
    pub status: Status,
}

impl Answer {
    /// Answers with a status alone. It takes no memory.
    pub fn silent(alloc: Global, status: Status) -> Answer
        ensures { result ≡ record { bytes = []; status = status } }
    {
        Answer {
            bytes: Bytes::new(alloc),
            status,
        }
    }

    /// Answers with a line, whose line feed is at its end.
    pub fn line(alloc: Global, line: &str, status: Status) -> Result<Answer, Memory>
        ensures { IfOk result (λ a. a ≡ record { bytes = line.now; status = status }) }
    {
        let mut bytes = Bytes::new(alloc);
        bytes.append(line.as_bytes())?;
        Ok(Answer { bytes, status })
    }

    /// Refuses a document for its first fault: `fault NAME POINTER`.
    #[tactic(auto, unfolding(crate::specs::Output::fault_line))]
    pub fn fault(alloc: Global, fault: &Fault) -> Result<Answer, Memory>
        ensures { IfOk result (λ a. a ≡ fault_answer fault.now) }
    {
        let mut bytes = Bytes::new(alloc);
        bytes.append(b"fault ".as_slice())?;
        bytes.append(fault.code.name().as_bytes())?;
        bytes.append(b" ".as_slice())?;
        bytes.append(fault.pointer.as_str().as_bytes())?;
        bytes.append(b"\n".as_slice())?;
        Ok(Answer {
            bytes,
            status: Status::Refused,
        })
    }

    /// Refuses bytes that are no JSON text: `syntax OFFSET`, where the offset is the number of bytes of their longest
    /// prefix that can become one.
    #[tactic(auto, unfolding(crate::specs::Output::syntax_line))]
    pub fn syntax(alloc: Global, offset: u64) -> Result<Answer, Memory>
        ensures { IfOk result (λ a. a ≡ syntax_answer offset) }
    {
        let line = format!(in alloc; "syntax {offset}\n")?;
        Answer::line(alloc, line.as_str(), Status::Refused)
    }
}

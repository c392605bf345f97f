//! The top call.
ghost use Rattle.std.specs.Prelude.{◌≡◌, ◌+◌, ◌≤◌, ◌⊎◌, ℕ, List, [], ◌∷◌, Some};
ghost use Rattle.lot_play.specs.declared.status.Status.TheVariants as status;
ghost use Rattle.lot_play.specs.declared.task.Task.{Task};
ghost use Rattle.lot_play.specs.Arguments.{AskFor, AskForNothing, AskForFrame, IsFrame};
ghost use Rattle.lot_play.specs.Count.{Rose, RoseBy, RoseAbove};
ghost use Rattle.lot_play.specs.Evaluations.{EvaluatesOnce};
ghost use Rattle.lot_play.specs.Folder.{SameContents, SameServed};
ghost use Rattle.lot_play.specs.Sink.{Gains, GainsPrefix};
ghost use Rattle.lot_play.specs.Status.{IsJudged, IsComplete, IsShort, IsSilent};
ghost use Rattle.lot_play.specs.Output.{Outcome, Output, Performs, IsKnown, AreKnown, AreServed, total_length, max_document_bytes};
ghost use Rattle.lot_play.specs.Run.{Writes, Ends};
ghost use Rattle.lot_types.specs.Limits.{max_layers};

use crate::answer::Answer;
use crate::judge::judge;
use crate::outside::{Folder, Sink, SinkRefusal};
use crate::reading::{ReadRefusal, read_all};
use crate::request::Request;
use crate::status::Status;
use crate::task::Task;
use crate::writing::write_all;
use lot_types::{Seq, Steps, Text};
use std::alloc::Global;
use std::sync::ledger::Ledger;

/// Runs the program on the arguments after its name, and answers how it ended.
///
/// `check DOC` writes whether the document `DOC` is accepted, and `frame DOC TIME` writes its frame at `TIME`, in
/// frames, as SVG. Any other arguments are no command: the status is [`Status::Usage`], and neither the folder nor
/// the sink is used. The folder has to serve the name `DOC`. `steps` counts the layers that are evaluated.
pub fn run<F: Folder, K: Sink, L: Ledger>(
    alloc: Global,
    arguments: &Seq<Text>,
    folder: &mut F,
    out: &mut K,
    steps: &mut Steps<L>,
) -> Status
    requires serves { AreServed (F.serves folder.old) arguments.now }

    // A run that is complete answered the defined status and wrote the defined bytes, and there are such.
    ensures defined { IsComplete result → (o : Outcome)
        → Output (F.state folder.old).content arguments.now o
        → (result ≡ o.answer.status) × Gains (K.state out.old) (K.state out.new) o.answer.bytes }
    ensures exists { IsComplete result → AreKnown (F.state folder.old).content arguments.now
        → (o : Outcome) × Output (F.state folder.old).content arguments.now o
        × (result ≡ o.answer.status) }

    // What was read is read once.
    ensures read_once { IsJudged result → (o : Outcome)
        → Output (F.state folder.old).content arguments.now o
        → RoseBy (total_length o.read) (F.state folder.old).given (F.state folder.new).given }

    // A run that stopped short wrote a prefix of the defined bytes.
    ensures prefix { IsShort result → (o : Outcome)
        → Output (F.state folder.old).content arguments.now o
        → GainsPrefix (K.state out.old) (K.state out.new) o.answer.bytes }
    ensures silent { IsSilent result → Gains (K.state out.old) (K.state out.new) [] }

    // The causes of the statuses.
    ensures misused { AskForNothing arguments.now
        → (result ≡ status.Usage) × (folder.new ≡ folder.old) × (out.new ≡ out.old) }
    ensures usage { result ≡ status.Usage
        → AskForNothing arguments.now ⊎ AskForFrame arguments.now }
    ensures read_fault { result ≡ status.ReadFault
        → Rose (F.state folder.old).faults (F.state folder.new).faults }
    ensures write_fault { result ≡ status.WriteFault
        → Rose (K.state out.old).faults (K.state out.new).faults }
    ensures too_long { result ≡ status.TooLong
        → RoseAbove max_document_bytes (F.state folder.old).given (F.state folder.new).given }
    ensures complete { (Rose (F.state folder.old).faults (F.state folder.new).faults → ⊥)
        → (Rose (K.state out.old).faults (K.state out.new).faults → ⊥)
        → IsComplete result ⊎ (result ≡ status.Memory) }

    ensures same { SameContents (F.state folder.old) (F.state folder.new) }
    ensures served { SameServed (F.serves folder.old) (F.serves folder.new) }

    // Only a frame is evaluated: of a document that is known, each layer that the frame shows at most once, and of
    // any no more layers than a composition may have.
    ensures uncounted { (AskForFrame arguments.now → ⊥) → steps.new ≡ steps.old }
    ensures evaluated { (document content : List ℕ) (task : Task)
        → AskFor arguments.now (document ∷ []) task
        → (F.state folder.old).content document ≡ Some content
        → EvaluatesOnce content task steps.old steps.new }
    ensures counted { steps.new ≤ steps.old + max_layers }
{
    match Request::of(arguments) {
        Some(request) => run_task(alloc, request.document, request.task, folder, out, steps),
        None => Status::Usage,
    }
}

/// Runs a task on the document that it reads.
fn run_task<F: Folder, K: Sink, L: Ledger>(
    alloc: Global,
    document: &str,
    task: Task,
    folder: &mut F,
    out: &mut K,
    steps: &mut Steps<L>,
) -> Status
    requires { F.serves folder.old document.now }
    ensures ends { Ends (Performs (F.state folder.old).content task [] (document.now ∷ []))
        (IsKnown (F.state folder.old).content document.now)
        (F.state folder.old) (F.state folder.new) (K.state out.old) (K.state out.new) result }
    ensures usage { result ≡ status.Usage → IsFrame task }
    ensures evaluated { (content : List ℕ)
        → (F.state folder.old).content document.now ≡ Some content
        → EvaluatesOnce content task steps.old steps.new }
    ensures same { SameContents (F.state folder.old) (F.state folder.new) }
    ensures served { SameServed (F.serves folder.old) (F.serves folder.new) }
    ensures uncounted { (IsFrame task → ⊥) → steps.new ≡ steps.old }
    ensures counted { steps.new ≤ steps.old + max_layers }
{
    let content = match read_all(alloc, folder, document) {
        Ok(content) => content,
        Err(ReadRefusal::Failed) => return Status::ReadFault,
        Err(ReadRefusal::TooLong) => return Status::TooLong,
        Err(ReadRefusal::Memory) => return Status::Memory,
    };
    match judge(alloc, content.as_slice(), task, steps) {
        Ok(answer) => write_answer(out, &answer),
        Err(_) => Status::Memory,
    }
}

/// Writes an answer, and answers how that ended.
fn write_answer<K: Sink>(out: &mut K, answer: &Answer) -> Status
    ensures written { Writes answer.now (K.state out.old) (K.state out.new) result }
    ensures later { (K.state out.old).faults ≤ (K.state out.new).faults }
{
    match write_all(out, answer.bytes.as_slice()) {
        Ok(_) => answer.status,
        Err(SinkRefusal::Failed) => Status::WriteFault,
        Err(SinkRefusal::Memory) => Status::Memory,
    }
}

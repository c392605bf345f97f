//! The answer to a task on the content of a document.
ghost use Rattle.std.specs.Prelude.{◌≡◌, ◌+◌, ◌≤◌, [], IfOk, Some};
ghost use Rattle.lot_play.specs.declared.status.Status.TheVariants.{Usage};
ghost use Rattle.lot_play.specs.Output.{moment as moment_in, moment_answer, document_answer};
ghost use Rattle.lot_play.specs.Arguments.{IsFrame};
ghost use Rattle.lot_play.specs.Evaluations.{EvaluatesOnce, EvaluatesTree, most_evaluated, shown_at};
ghost use Rattle.lot_play.specs.Judge.{IsTreeAnswer, IsOnlyAnswer};
ghost use Rattle.lot_play.specs.Judged.{judged};
ghost use Rattle.lot_play.specs.Status.{IsJudged};
ghost use Rattle.lot_read.specs.Outcome.{IsAnswer};
ghost use Rattle.lot_types.specs.Limits.{max_layers};

use crate::answer::Answer;
use crate::frame::draw_frame;
use crate::status::Status;
use crate::task::Task;
use lot_doc::read_doc;
use lot_json::{Json, JsonRefusal, Number, parse};
use lot_refs::{Linked, check_refs};
use lot_types::{Doc, Memory, Refusal, Steps, Time};
use std::alloc::Global;
use std::sync::ledger::Ledger;

/// Answers a task on the content of a document: the place where it stops being JSON, or its first fault, or what the
/// task asks for. Only the layers that a frame shows are evaluated, each at most once.
pub fn judge<L: Ledger>(
    alloc: Global,
    content: &[u8],
    task: Task,
    steps: &mut Steps<L>,
) -> Result<Answer, Memory>
    ensures answer { IfOk result (IsOnlyAnswer content.now task) }
    ensures judged { IfOk result (λ a. IsJudged a.status) }
    ensures usage { IfOk result (λ a. a.status ≡ Usage → IsFrame task × (a.bytes ≡ [])) }
    ensures evaluated { EvaluatesOnce content.now task steps.old steps.new }
    ensures uncounted { (IsFrame task → ⊥) → steps.new ≡ steps.old }
    ensures counted { steps.new ≤ steps.old + max_layers }
{
    match parse(alloc, content) {
        Ok(j) => judge_tree(alloc, &j, task, steps),
        Err(JsonRefusal::Syntax(offset)) => Answer::syntax(alloc, offset),
        Err(JsonRefusal::Memory) => Err(Memory),
    }
}

/// Answers a task on the tree of a document.
fn judge_tree<L: Ledger>(
    alloc: Global,
    j: &Json,
    task: Task,
    steps: &mut Steps<L>,
) -> Result<Answer, Memory>
    ensures answer { IfOk result (IsTreeAnswer j.now task) }
    ensures evaluated { EvaluatesTree j.now task steps.old steps.new }
    ensures uncounted { (IsFrame task → ⊥) → steps.new ≡ steps.old }
    ensures counted { steps.new ≤ steps.old + max_layers }
{
    match read_document(alloc, j) {
        Ok(d) => perform(alloc, &d, task, steps),
        Err(Refusal::Fault(fault)) => Answer::fault(alloc, &fault),
        Err(Refusal::Memory) => Err(Memory),
    }
}

/// Reads a document, and checks its references.
fn read_document(alloc: Global, j: &Json) -> Result<Linked, Refusal>
    ensures { IsAnswer result (judged j.now) }
{
    let read = read_doc(alloc, j)?;
    let linked = check_refs(alloc, read)?;
    Ok(linked)
}

/// Answers a task on an accepted document.
#[tactic(auto, unfolding(crate::specs::Output::document_answer, crate::specs::Evaluations::most_evaluated))]
fn perform<L: Ledger>(
    alloc: Global,
    d: &Linked,
    task: Task,
    steps: &mut Steps<L>,
) -> Result<Answer, Memory>
    ensures answer { IfOk result (λ a. document_answer d.now task ≡ Some a) }
    ensures evaluated { steps.new ≤ steps.old + most_evaluated d.now task }
    ensures uncounted { (IsFrame task → ⊥) → steps.new ≡ steps.old }
    ensures counted { steps.new ≤ steps.old + max_layers }
{
    match task {
        Task::Check => Answer::line(alloc, "ok\n", Status::Done),
        Task::Frame(time) => draw_at(alloc, d, time, steps),
    }
}

/// Answers with the SVG of a document at a time, or with [`Status::Usage`] where the animation does not run.
fn draw_at<L: Ledger>(
    alloc: Global,
    d: &Linked,
    time: Number,
    steps: &mut Steps<L>,
) -> Result<Answer, Memory>
    ensures answer { IfOk result (λ a. moment_answer d.now (moment_in d.now time) ≡ Some a) }
    ensures evaluated { steps.new ≤ steps.old + shown_at d.now (moment_in d.now time) }
    ensures counted { steps.new ≤ steps.old + max_layers }
{
    match moment(d.doc(), time) {
        Some(t) => Ok(Answer {
            bytes: draw_frame(alloc, d, t, steps)?,
            status: Status::Done,
        }),
        None => Ok(Answer::silent(alloc, Status::Usage)),
    }
}

/// The time, in millionths of a frame, where the animation runs at it.
fn moment(doc: &Doc, time: Number) -> Option<Time>
    ensures { result ≡ moment_in doc.now time }
{
    match time {
        Number::Micro(t) if doc.ip.get() <= t.get() && t.get() < doc.op.get() => Time::new(t.get()),
        _ => None,
    }
}

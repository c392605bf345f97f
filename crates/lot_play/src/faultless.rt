//! That each document without faults has a value, and an answer to each task.
ghost use Rattle.std.specs.Prelude.{◌≡◌, [], Some, IsSome};
ghost use Rattle.lot_json.specs.declared.tree.json.Json.{Json};
ghost use Rattle.lot_play.specs.declared.task.Task.{Task};
ghost use Rattle.lot_play.specs.Judged.{judged};
ghost use Rattle.lot_play.specs.Output.{document_answer};
ghost use Rattle.lot_read.specs.Sound.{IsSound};
ghost use Rattle.lot_types.specs.declared.doc.Doc.{Doc};

/// A document without faults, in its tables and its references, has a value, so that the output is defined on it. It
/// does nothing: its clause is a law of the definitions alone.
pub fn faultless_document_has_value()
    ensures { (j : Json) → IsSound (judged j) }
{}

/// Each document that is accepted has an answer to each task: a frame at every time at which the animation runs. It does
/// nothing: its clause is a law of the definitions alone.
pub fn accepted_document_has_answers()
    ensures { (j : Json) (d : Doc) (task : Task)
        → (judged j).faults ≡ [] → (judged j).value ≡ Some d
        → IsSome (document_answer d task) }
{}

//! That each document without faults has a value.
ghost use Rattle.lot_json.specs.declared.tree.json.Json.{Json};
ghost use Rattle.lot_read.specs.Sound.{IsSound};
ghost use Rattle.lot_doc.specs.Root.{document};

/// A document without faults has a value, so that the reader has an answer on it. It does nothing: its clause is a law
/// of the definitions alone.
pub fn faultless_document_has_value()
    ensures { (j : Json) → IsSound (document j) }
{}

//! Laws of the definitions, each the contract of a function that does nothing.

ghost use Rattle.std.specs.Prelude.{◌≡◌, ◌++◌, ℕ, List};
ghost use Rattle.lot_json.specs.declared.tree.json.Json.{Json};
ghost use Rattle.lot_json.specs.declared.tree.number.Number.{Number};
ghost use Rattle.lot_json.specs.NumberToken.{IsNumberToken};
ghost use Rattle.lot_json.specs.Characters.{Characters};
ghost use Rattle.lot_json.specs.Grammar.{JsonText};
ghost use Rattle.lot_json.specs.Viable.{IsViable};

/// The bytes of a JSON text have one tree, those of a number token one number, and the characters of a string one
/// string.
pub fn has_one_tree()
    ensures tree { (b : List ℕ) (x y : Json) → JsonText b x → JsonText b y → x ≡ y }
    ensures number { (b : List ℕ) (m n : Number) → IsNumberToken b m → IsNumberToken b n → m ≡ n }
    ensures string { (b s t : List ℕ) → Characters b s → Characters b t → s ≡ t }
{}

/// Where bytes can become a JSON text, a prefix of them can too.
pub fn a_prefix_is_viable()
    ensures { (prefix rest : List ℕ) → IsViable (prefix ++ rest) → IsViable prefix }
{}

/// The bytes of a JSON text can become one.
pub fn a_text_is_viable()
    ensures { (bytes : List ℕ) (x : Json) → JsonText bytes x → IsViable bytes }
{}

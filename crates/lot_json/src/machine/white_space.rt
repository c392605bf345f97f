ghost use Rattle.std.specs.Prelude.{◌≡◌, ◌↔◌, IsTrue};
ghost use Rattle.lot_json.specs.Grammar.{IsWhiteSpace};

/// Whether a byte is white space by RFC 8259, section 2: a space, a tab, a line feed or a carriage return.
pub(crate) fn is_white_space(c: u8) -> bool
    ensures { IsTrue result ↔ IsWhiteSpace c }
{
    c == b' ' || c == b'\t' || c == b'\n' || c == b'\r'
}

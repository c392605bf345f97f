//! Characters of a string that are unescaped: spelled by their own bytes in UTF-8.

ghost use Rattle.std.specs.Prelude.{◌≡◌, ◌↔◌, ◌≤◌, ◌∷◌, ◌++◌, List, ℕ, IsTrue, IfSome, length, take};
ghost use Rattle.std.specs.Str.{IsUtf8};
ghost use Rattle.lot_json.specs.Bytes.{quote};
ghost use Rattle.lot_json.specs.Unescaped.{IsUnescapedByte, AreUnescapedBytes};

/// The string whose characters and closing quotation mark the bytes begin with. `None` where it has an escape, and
/// where it does not end in these bytes.
pub(crate) fn string_without_escapes(bytes: &[u8]) -> Option<&str>
    ensures spelled { IfSome result (λ s. (rest : List ℕ) × (bytes.now ≡ s.now ++ quote ∷ rest)) }
    ensures unescaped { IfSome result (λ s. AreUnescapedBytes s.now) }
    ensures utf8 { IfSome result (λ s. IsUtf8 s.now) }
{
    let text = unescaped_prefix(bytes);
    if text.len() >= bytes.len() {
        return None;
    }
    if bytes[text.len()] != b'"' {
        return None;
    }
    Some(text)
}

/// The whole unescaped characters that the bytes begin with.
pub(crate) fn unescaped_prefix(bytes: &[u8]) -> &str
    ensures prefix { result.now ≡ take (length result.now) bytes.now }
    ensures unescaped { AreUnescapedBytes result.now }
{
    let unescaped = &bytes[..unescaped_len(bytes)];
    if unescaped.is_empty() {
        return "";
    }
    match str::from_utf8(unescaped) {
        Ok(text) => text,
        Err(error) => unsafe { str::from_utf8_unchecked(&unescaped[..error.valid_up_to()]) },
    }
}

/// The number of bytes before the first that no unescaped character contains.
fn unescaped_len(bytes: &[u8]) -> usize
    ensures within { result ≤ length bytes.now }
    ensures unescaped { AreUnescapedBytes (take result bytes.now) }
{
    for (index, c) in bytes.iter().enumerate() {
        if !is_unescaped_byte(*c) {
            return index;
        }
    }
    bytes.len()
}

/// Whether an unescaped character may contain the byte.
fn is_unescaped_byte(c: u8) -> bool
    ensures { IsTrue result ↔ IsUnescapedByte c }
{
    c >= b' ' && c != b'"' && c != b'\\'
}

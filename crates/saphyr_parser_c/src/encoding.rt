//! The encoding of a text: how many bytes at its front are UTF-8, and whether it begins as UTF-16 (YAML 1.2.2, 5.2).

ghost use Rattle.std.specs.Prelude.{◌≡◌, ◌≤◌, ◌↔◌, IfSome, IsTrue, IsUtf8, None, drop, length, take};
ghost use Rattle.saphyr_parser_c.specs.Encoding.{BeginsAsUtf16, IsCutCharacter, IsUtf8Front, IsUtf8SoFar};

/// How many bytes at the front are UTF-8. If not all are, this is the place of the first that is not.
pub fn utf8_front(text: &[u8]) -> usize
    ensures { IsUtf8Front text.now result }
{
    match str::from_utf8(text) {
        Ok(_) => text.len(),
        Err(error) => error.valid_up_to(),
    }
}

/// How many bytes at the front are UTF-8, if a character that is cut off is all that comes after them. `None`: the
/// bytes are not UTF-8, whatever follows.
pub fn whole_front(bytes: &[u8]) -> Option<usize>
    ensures front { IfSome result (λ n. (n ≤ length bytes.now) × IsUtf8 (take n bytes.now)) }
    ensures cut { IfSome result (λ n. length (drop n bytes.now) ≤ 3) }
    ensures waits { IfSome result (λ n. IsCutCharacter (drop n bytes.now)) }
    ensures refused { result ≡ None → IsUtf8SoFar bytes.now → ⊥ }
{
    match str::from_utf8(bytes) {
        Ok(_) => Some(bytes.len()),
        Err(error) if error.error_len().is_none() => Some(error.valid_up_to()),
        Err(_) => None,
    }
}

/// Whether a text begins with the byte order mark of UTF-16.
pub fn begins_as_utf16(text: &[u8]) -> bool
    ensures { IsTrue result ↔ BeginsAsUtf16 text.now }
{
    match text {
        [0xfe, 0xff, ..] => true,
        [0xff, 0xfe, 0, 0, ..] => false,
        [0xff, 0xfe, ..] => true,
        _ => false,
    }
}

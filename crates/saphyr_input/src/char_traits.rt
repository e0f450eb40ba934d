//! The sets of characters that a YAML reader tests for.
ghost use Rattle.std.specs.Prelude.{◌≡◌, ◌<◌, ◌↔◌, IsTrue};
ghost use Rattle.saphyr_input.specs.Classes as spec;

/// Whether the character is NUL. Each place past the end of an input reads as NUL.
#[inline]
pub fn is_z(c: char) -> bool
    ensures test { result ≡ spec.is_z c }
    ensures set { IsTrue result ↔ spec.IsZ c }
{
    c == '\0'
}

/// Whether the character is a line break, LF or CR (YAML 1.2.2, 5.4).
#[inline]
pub fn is_break(c: char) -> bool
    ensures test { result ≡ spec.is_break c }
    ensures set { IsTrue result ↔ spec.IsBreak c }
{
    c == '\n' || c == '\r'
}

/// Whether the character is a line break or NUL.
#[inline]
pub fn is_breakz(c: char) -> bool
    ensures test { result ≡ spec.is_breakz c }
    ensures set { IsTrue result ↔ spec.IsBreakz c }
{
    is_break(c) || is_z(c)
}

/// Whether the character is white space, a space or a tab (YAML 1.2.2, 5.5).
#[inline]
pub fn is_blank(c: char) -> bool
    ensures test { result ≡ spec.is_blank c }
    ensures set { IsTrue result ↔ spec.IsBlank c }
{
    c == ' ' || c == '\t'
}

/// Whether the character is white space, a line break or NUL.
#[inline]
pub fn is_blank_or_breakz(c: char) -> bool
    ensures test { result ≡ spec.is_blank_or_breakz c }
    ensures set { IsTrue result ↔ spec.IsBlankOrBreakz c }
{
    is_blank(c) || is_breakz(c)
}

/// Whether the character is a decimal digit (YAML 1.2.2, 5.6).
#[inline]
pub fn is_digit(c: char) -> bool
    ensures test { result ≡ spec.is_digit c }
    ensures set { IsTrue result ↔ spec.IsDigit c }
{
    c.is_ascii_digit()
}

/// Whether the character is a digit, an ASCII letter, `_` or `-`.
#[inline]
pub fn is_alpha(c: char) -> bool
    ensures test { result ≡ spec.is_alpha c }
    ensures set { IsTrue result ↔ spec.IsAlpha c }
{
    matches!(c, 'a'..='z' | '0'..='9' | 'A'..='Z' | '_' | '-')
}

/// Whether the character is a hexadecimal digit, of either case (YAML 1.2.2, 5.6).
#[inline]
pub fn is_hex(c: char) -> bool
    ensures test { result ≡ spec.is_hex c }
    ensures set { IsTrue result ↔ spec.IsHex c }
{
    c.is_ascii_hexdigit()
}

/// The value of a hexadecimal digit.
#[inline]
pub fn as_hex(c: char) -> u32
    requires { spec.IsHex c }
    ensures value { result ≡ spec.hex_value c }
    ensures digit { result < 16 }
{
    match c {
        '0'..='9' => c as u32 - '0' as u32,
        'a'..='f' => c as u32 - 'a' as u32 + 10,
        _ => c as u32 - 'A' as u32 + 10,
    }
}

/// Whether the character is a flow indicator, one of `,[]{}` (YAML 1.2.2, 7.4).
#[inline]
pub fn is_flow(c: char) -> bool
    ensures test { result ≡ spec.is_flow c }
    ensures set { IsTrue result ↔ spec.IsFlow c }
{
    matches!(c, ',' | '[' | ']' | '{' | '}')
}

/// Whether the character is the byte order mark, U+FEFF (YAML 1.2.2, 5.2).
#[inline]
pub fn is_bom(c: char) -> bool
    ensures test { result ≡ spec.is_bom c }
    ensures set { IsTrue result ↔ spec.IsBom c }
{
    c == '\u{FEFF}'
}

/// Whether the character is none of NUL, the line breaks and the byte order mark (YAML 1.2.2, 5.4).
#[inline]
pub fn is_yaml_non_break(c: char) -> bool
    ensures test { result ≡ spec.is_yaml_non_break c }
    ensures set { IsTrue result ↔ spec.IsYamlNonBreak c }
{
    !is_breakz(c) && !is_bom(c)
}

/// Whether the character is a non-break and no white space (YAML 1.2.2, 5.5).
#[inline]
pub fn is_yaml_non_space(c: char) -> bool
    ensures test { result ≡ spec.is_yaml_non_space c }
    ensures set { IsTrue result ↔ spec.IsYamlNonSpace c }
{
    is_yaml_non_break(c) && !is_blank(c)
}

/// Whether the character may occur in an anchor's name (YAML 1.2.2, 6.9.2).
#[inline]
pub fn is_anchor_char(c: char) -> bool
    ensures test { result ≡ spec.is_anchor_char c }
    ensures set { IsTrue result ↔ spec.IsAnchorChar c }
{
    is_yaml_non_space(c) && !is_flow(c)
}

/// Whether the character is a word character: a digit, an ASCII letter or `-` (YAML 1.2.2, 5.6).
#[inline]
pub fn is_word_char(c: char) -> bool
    ensures test { result ≡ spec.is_word_char c }
    ensures set { IsTrue result ↔ spec.IsWordChar c }
{
    is_alpha(c) && c != '_'
}

// The characters of a URI that are no word characters.
#[inline]
fn is_uri_mark(c: char) -> bool
    ensures { result ≡ spec.is_uri_mark c }
{
    matches!(
        c,
        '!' | '#'..=',' | '.' | '/' | ':' | ';' | '=' | '?' | '@' | '[' | ']' | '_' | '~'
    )
}

/// Whether the character may occur in a URI (YAML 1.2.2, 5.6).
#[inline]
pub fn is_uri_char(c: char) -> bool
    ensures test { result ≡ spec.is_uri_char c }
    ensures set { IsTrue result ↔ spec.IsUriChar c }
{
    is_word_char(c) || is_uri_mark(c)
}

/// Whether the character may occur in a tag's suffix: a URI's without `!` and the flow indicators (YAML 1.2.2, 5.6).
#[inline]
pub fn is_tag_char(c: char) -> bool
    ensures test { result ≡ spec.is_tag_char c }
    ensures set { IsTrue result ↔ spec.IsTagChar c }
{
    is_uri_char(c) && !(is_flow(c) || c == '!')
}

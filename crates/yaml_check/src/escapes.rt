//! Escapes in double quotes.
ghost use Rattle.std.specs.Prelude.{◌<◌, ◌≤◌, length, IfSome};
ghost use Rattle.yaml_check.specs.Helps.{IsBadEscape};

/// The first escape behind an opening quote that is none.
pub(crate) fn bad_escape(text: &[char], quote: usize) -> Option<usize>
    requires { quote ≤ length text.now }
    ensures { IfSome result (IsBadEscape text.now quote) }
{
    let mut at = quote + 1;
    while at < text.len() {
        if text[at] != '\\' {
            at += 1;
            continue;
        }
        let Some(count) = escape_length(&text[at + 1..]) else {
            return Some(at);
        };
        at += 1 + count;
    }
    None
}

/// How many characters behind a backslash make an escape with it.
fn escape_length(rest: &[char]) -> Option<usize>
    ensures { IfSome result (λ n. n ≤ length rest.now) }
{
    match rest.first()? {
        'x' => digits(rest, 2),
        'u' => digits(rest, 4),
        'U' => digits(rest, 8),
        '0' | 'a' | 'b' | 't' | '\t' | 'n' | 'v' | 'f' | 'r' | 'e' | ' ' | '"' | '/' | '\\' => Some(
            1,
        ),
        'N' | '_' | 'L' | 'P' | '\n' | '\r' => Some(1),
        _ => None,
    }
}

/// The length of an escape with so many digits, if these are the code of a character.
fn digits(rest: &[char], count: usize) -> Option<usize>
    ensures { IfSome result (λ n. n ≤ length rest.now) }
{
    let mut code = 0u32;
    for c in rest.get(1..=count)? {
        code = code.saturating_mul(16).saturating_add(c.to_digit(16)?);
    }
    match char::from_u32(code) {
        Some(_) => Some(count + 1),
        None => None,
    }
}

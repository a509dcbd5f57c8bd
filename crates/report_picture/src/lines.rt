//! The lines of a text.

ghost use Rattle.std.specs.Prelude.{◌≡◌, ◌<◌, ◌≤◌, ◌==◌, [], ◌∷◌, not, position, length, Some, None};
ghost use Rattle.std.specs.Prelude.{IfSome, MatchOption};
ghost use Rattle.std.specs.List.{prefix_len, take_while};
ghost use Rattle.report_lines.specs.Fronts as fronts;
ghost use Rattle.trace_audit.specs.TextLines.{text_lines};

use memchr::memchr;

/// Where a byte stands first.
fn place_of(byte: u8, text: &[u8]) -> Option<usize>
    ensures { result ≡ position (λ c. c == byte) text.now }
{
    memchr(byte, text)
}

/// The first line of a text, with the LF that ends it, and what stands behind it; `None` where no text is left.
pub fn next_line(text: &[u8]) -> Option<(&[u8], &[u8])>
    ensures lines { MatchOption result (text.now ≡ [])
        (λ parts. text_lines text.now ≡ parts.0.now ∷ text_lines parts.1.now) }
    ensures shorter { IfSome result (λ parts. length parts.1.now < length text.now) }
{
    if text.is_empty() {
        return None;
    }
    match place_of(b'\n', text) {
        Some(at) => Some((&text[..at + 1], &text[at + 1..])),
        None => Some((text, &[])),
    }
}

/// How many bytes stand before the first one that is this.
fn length_before(byte: u8, text: &[u8]) -> usize
    ensures count { result ≡ prefix_len (λ c. not (c == byte)) text.now }
    ensures within { result ≤ length text.now }
{
    place_of(byte, text).unwrap_or(text.len())
}

/// What stands before the first byte that is this.
pub fn before(byte: u8, text: &[u8]) -> &[u8]
    ensures { result.now ≡ take_while (λ c. not (c == byte)) text.now }
{
    &text[..length_before(byte, text)]
}

/// What stands behind these bytes, where a text begins with them.
pub fn behind<'a>(text: &'a [u8], front: &[u8]) -> Option<&'a [u8]>
    ensures { MatchOption result (fronts.behind front.now text.now ≡ None)
        (λ rest. fronts.behind front.now text.now ≡ Some rest.now) }
{
    text.strip_prefix(front)
}

/// How many lines a text has.
pub fn line_count(text: &[u8]) -> usize
    ensures count { result ≡ length (text_lines text.now) }
    ensures few { result ≤ length text.now }
{
    let mut count: usize = 0;
    let mut rest = text;
    while let Some((_, behind)) = next_line(rest) {
        count += 1;
        rest = behind;
    }
    count
}

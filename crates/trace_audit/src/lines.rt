//! The lines of a text.

ghost use Rattle.std.specs.Prelude.{◌≡◌, ◌<◌, ◌+◌, ◌++◌, ◌∷◌, [], ◌==◌, position, length, IfSome, MatchOption, ℕ, List};
ghost use Rattle.trace_audit.specs.TextLines.{text_lines, is_mark as model_is_mark};

use memchr::memchr;

/// Where the first LF stands.
fn end_of(text: &[u8]) -> Option<usize>
    ensures { result ≡ position (λ c. c == 10) text.now }
{
    memchr(b'\n', text)
}

/// The first line of a text, with the LF that ends it, and what stands behind it; `None` where no text is left.
pub fn next_line(text: &[u8]) -> Option<(&[u8], &[u8])>
    ensures lines { MatchOption result (text.now ≡ [])
        (λ parts. text_lines text.now ≡ parts.0.now ∷ text_lines parts.1.now) }
    ensures parts { IfSome result (λ parts. text.now ≡ parts.0.now ++ parts.1.now) }
    ensures shorter { IfSome result (λ parts. length parts.1.now < length text.now) }
{
    if text.is_empty() {
        return None;
    }
    match end_of(text) {
        Some(at) => Some((&text[..at + 1], &text[at + 1..])),
        None => Some((text, &[])),
    }
}

/// A line without the LF that ends it; `None` where it has none.
pub fn without_end(line: &[u8]) -> Option<&[u8]>
    ensures { MatchOption result ((front : List ℕ) → front ++ 10 ∷ [] ≡ line.now → ⊥)
        (λ front. front.now ++ 10 ∷ [] ≡ line.now) }
{
    match line {
        [front @ .., b'\n'] => Some(front),
        _ => None,
    }
}

/// Whether it is the line `==`.
pub fn is_mark(line: &[u8]) -> bool
    ensures { result ≡ model_is_mark line.now }
{
    line == b"==\n".as_slice()
}

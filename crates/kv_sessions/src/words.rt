//! Lines, words, keys and numbers.

ghost use Rattle.std.specs.Prelude.{◌≡◌, ◌<◌, ◌+◌, ◌∷◌, ◌==◌, [], length, position};
ghost use Rattle.std.specs.Prelude.{bytes_eq, IfSome, MatchOption};
ghost use Rattle.std.specs.List.{slice_split, list_all};
ghost use Rattle.kv_sessions.specs.Lines as lines;

use crate::LONGEST_KEY;

/// The place of the first such byte.
pub(crate) fn place_of(text: &[u8], byte: u8) -> Option<usize>
    ensures place { result ≡ position (λ c. c == byte) text.now }
    ensures within { IfSome result (λ at. at < length text.now) }
{
    text.iter().position(|c| *c == byte)
}

/// The text of a line, of which all that stands before its LF is given: without one CR at its end.
pub(crate) fn text_of(before: &[u8]) -> &[u8]
    ensures { result.now ≡ lines.text_of before.now }
{
    match before {
        [text @ .., b'\r'] => text,
        _ => before,
    }
}

/// The parts of a text before and behind its first space.
fn cut(text: &[u8]) -> Option<(&[u8], &[u8])>
    ensures parts { MatchOption result (slice_split (λ c. c == 32) text.now ≡ text.now ∷ [])
        (λ parts. slice_split (λ c. c == 32) text.now ≡ parts.0.now ∷ slice_split (λ c. c == 32) parts.1.now) }
    ensures shorter { IfSome result (λ parts. length parts.1.now < length text.now) }
{
    match place_of(text, b' ') {
        Some(at) => Some((&text[..at], &text[at + 1..])),
        None => None,
    }
}

/// The first word of a text, and what stands behind it.
pub(crate) fn next_word(text: &[u8]) -> Option<(&[u8], &[u8])>
    ensures word { MatchOption result (lines.words_of text.now ≡ [])
        (λ cut. lines.words_of text.now ≡ cut.0.now ∷ lines.words_of cut.1.now) }
    ensures shorter { IfSome result (λ cut. length cut.1.now < length text.now) }
{
    let mut rest = text;
    while let Some((word, behind)) = cut(rest) {
        if !word.is_empty() {
            return Some((word, behind));
        }
        rest = behind;
    }
    if rest.is_empty() {
        None
    } else {
        Some((rest, &[]))
    }
}

/// Whether a word is this one.
pub(crate) fn is(word: &[u8], text: &[u8]) -> bool
    ensures { result ≡ bytes_eq word.now text.now }
{
    word == text
}

/// Whether a word is a key: 1 to 250 bytes from 33 to 126.
pub(crate) fn is_key(word: &[u8]) -> bool
    ensures { result ≡ lines.is_key word.now }
{
    !word.is_empty() && word.len() <= LONGEST_KEY && all_visible(word)
}

fn all_visible(word: &[u8]) -> bool
    ensures { result ≡ list_all lines.is_visible word.now }
{
    word.iter().all(|c| *c >= 33 && *c <= 126)
}

/// The number of 32 bits that a word is, in decimal without sign or leading zero.
pub(crate) fn number_of(word: &[u8]) -> Option<u32>
    ensures { result ≡ lines.number_of word.now }
{
    let mut value = 0;
    for c in word {
        value = value * 10 + u64::from(c.saturating_sub(b'0'));
        if value > u64::from(u32::MAX) {
            return None;
        }
    }
    if is_numeral(word) {
        Some(value as u32)
    } else {
        None
    }
}

/// Whether a word is decimal digits without a leading zero.
fn is_numeral(word: &[u8]) -> bool
    ensures { result ≡ lines.is_numeral word.now }
{
    match word {
        [] => false,
        [first, rest @ ..] => (*first != b'0' || rest.is_empty()) && all_digits(word),
    }
}

fn all_digits(word: &[u8]) -> bool
    ensures { result ≡ list_all lines.is_digit word.now }
{
    word.iter().all(|c| *c >= b'0' && *c <= b'9')
}

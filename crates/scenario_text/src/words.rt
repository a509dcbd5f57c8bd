//! The words of a line.

ghost use Rattle.std.specs.Prelude.{◌≡◌, ◌≤◌, ◌+◌, ◌∷◌, ◌++◌, ◌==◌, ◌||◌, [], if◌then◌else◌, map, length, position};
ghost use Rattle.std.specs.Prelude.{bytes_eq, IfOk, OnOk, IfSome, MatchOption};
ghost use Rattle.std.specs.Option.{ForSome};
ghost use Rattle.std.specs.List.{slice_split, list_all};
ghost use Rattle.scenario_text.specs.Words as forms;

use std::alloc::{AllocError, Global};

/// The place of the first such byte.
fn place_of(text: &[u8], byte: u8) -> Option<usize>
    ensures { result ≡ position (λ c. c == byte) text.now }
{
    text.iter().position(|c| *c == byte)
}

/// The parts of a text before and behind the first such byte.
pub(crate) fn cut(text: &[u8], byte: u8) -> Option<(&[u8], &[u8])>
    ensures parts { MatchOption result (slice_split (λ c. c == byte) text.now ≡ text.now ∷ [])
        (λ parts. slice_split (λ c. c == byte) text.now ≡ parts.0.now ∷ slice_split (λ c. c == byte) parts.1.now) }
    ensures shorter { IfSome result (λ parts. length parts.0.now + length parts.1.now + 1 ≡ length text.now) }
{
    match place_of(text, byte) {
        Some(at) => Some((&text[..at], &text[at + 1..])),
        None => None,
    }
}

/// Puts a word behind others, where it is not empty. The error is want of memory.
fn push_word<'a>(words: &mut Vec<&'a [u8]>, word: &'a [u8]) -> Result<(), AllocError>
    ensures { OnOk result (map (λ w. w.now) words.new.items ≡ map (λ w. w.now) words.old.items
        ++ (if forms.is_empty word.now then [] else word.now ∷ [])) }
{
    if !word.is_empty() {
        words.push(word)?;
    }
    Ok(())
}

/// The words of a line. The error is want of memory.
pub(crate) fn words_of(alloc: Global, line: &[u8]) -> Result<Vec<&[u8]>, AllocError>
    ensures { IfOk result (λ ws. map (λ w. w.now) ws.items ≡ forms.words_of line.now) }
{
    let mut found = Vec::new(alloc);
    let mut rest = line;
    while let Some((word, after)) = cut(rest, b' ') {
        push_word(&mut found, word)?;
        rest = after;
    }
    push_word(&mut found, rest)?;
    Ok(found)
}

/// Whether a word is this one.
pub(crate) fn is(word: &[u8], text: &[u8]) -> bool
    ensures { result ≡ bytes_eq word.now text.now }
{
    word == text
}

/// Whether a word is decimal digits without a leading zero.
fn is_numeral(word: &[u8]) -> bool
    ensures { result ≡ forms.is_numeral word.now }
{
    match word {
        [] => false,
        [first, rest @ ..] => (*first != b'0' || rest.is_empty()) && all_digits(word),
    }
}

fn all_digits(word: &[u8]) -> bool
    ensures { result ≡ list_all forms.is_digit word.now }
{
    word.iter().all(|c| is_digit(*c))
}

fn is_digit(c: u8) -> bool
    ensures { result ≡ forms.is_digit c }
{
    c >= b'0' && c <= b'9'
}

fn is_letter(c: u8) -> bool
    ensures { result ≡ forms.is_letter c }
{
    c >= b'a' && c <= b'z'
}

/// The number that a word is, where it is one from `low` to `high`.
pub(crate) fn number_in(low: u32, high: u32, word: &[u8]) -> Option<u32>
    ensures number { result ≡ forms.number_in low high word.now }
    ensures range { IfSome result (λ n. n ≤ high) }
{
    let mut value = 0;
    for c in word {
        value = value * 10 + c.saturating_sub(b'0') as u64;
        if value > high as u64 {
            return None;
        }
    }
    if is_numeral(word) && value >= low as u64 {
        Some(value as u32)
    } else {
        None
    }
}

/// Whether a word is a name: 1 to 16 letters a to z and digits, first a letter.
pub(crate) fn is_name(word: &[u8]) -> bool
    ensures { result ≡ forms.is_name word.now }
{
    begins_with_letter(word) && word.len() <= 16 && all_of_names(word)
}

/// Whether all bytes are letters a to z and digits.
fn all_of_names(word: &[u8]) -> bool
    ensures { result ≡ list_all (λ c. forms.is_letter c || forms.is_digit c) word.now }
{
    word.iter().all(|c| is_of_names(*c))
}

fn is_of_names(c: u8) -> bool
    ensures { result ≡ (forms.is_letter c || forms.is_digit c) }
{
    is_letter(c) || is_digit(c)
}

fn begins_with_letter(word: &[u8]) -> bool
    ensures { result ≡ forms.begins_with_letter word.now }
{
    match word {
        [] => false,
        [first, ..] => is_letter(*first),
    }
}

/// The address that a word is: four numbers up to 255 with dots.
pub(crate) fn address_of(word: &[u8]) -> Option<u32>
    ensures { result ≡ forms.address_of word.now }
{
    let (a, rest) = cut(word, b'.')?;
    let (b, rest) = cut(rest, b'.')?;
    let (c, d) = cut(rest, b'.')?;
    match cut(d, b'.') {
        Some(_) => None,
        None => joined(
            number_in(0, 255, a),
            number_in(0, 255, b),
            number_in(0, 255, c),
            number_in(0, 255, d),
        ),
    }
}

fn joined(a: Option<u32>, b: Option<u32>, c: Option<u32>, d: Option<u32>) -> Option<u32>
    requires a { ForSome a (λ n. n ≤ 255) }
    requires b { ForSome b (λ n. n ≤ 255) }
    requires c { ForSome c (λ n. n ≤ 255) }
    requires d { ForSome d (λ n. n ≤ 255) }
    ensures { result ≡ forms.joined a b c d }
{
    match (a, b, c, d) {
        (Some(a), Some(b), Some(c), Some(d)) => Some(((a * 256 + b) * 256 + c) * 256 + d),
        _ => None,
    }
}

/// A text without the spaces at its front.
fn without_spaces(text: &[u8]) -> &[u8]
    ensures { result.now ≡ forms.without_spaces text.now }
{
    let mut rest = text;
    while let [b' ', after @ ..] = rest {
        rest = after;
    }
    rest
}

/// A text from its first space on.
fn behind_word(text: &[u8]) -> &[u8]
    ensures { result.now ≡ forms.behind_word text.now }
{
    let mut rest = text;
    while let [c, after @ ..] = rest {
        if *c == b' ' {
            break;
        }
        rest = after;
    }
    rest
}

/// What stands in a line behind its second word and one space.
pub(crate) fn text_of(line: &[u8]) -> &[u8]
    ensures { result.now ≡ forms.text_of line.now }
{
    match behind_word(without_spaces(behind_word(without_spaces(line)))) {
        [] => &[],
        [_, text @ ..] => text,
    }
}

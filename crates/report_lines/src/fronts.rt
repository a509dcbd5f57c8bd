//! Words and numbers at the front of a text.

ghost use Rattle.std.specs.Prelude.{◌≡◌, ◌≤◌, ◌*◌, ◌+◌, not, length, position, None, Some, MatchOption, IfSome};
ghost use Rattle.std.specs.List.{prefix_len, list_all};
ghost use Rattle.scenario_text.specs.Words as words;
ghost use Rattle.report_lines.specs.Fronts as rules;

use crate::hex::HexText;

/// What stands behind these bytes, where a text begins with them.
#[inline(always)]
pub(crate) fn behind<'a>(text: &'a [u8], front: &[u8]) -> Option<&'a [u8]>
    ensures { MatchOption result (rules.behind front.now text.now ≡ None)
        (λ rest. rules.behind front.now text.now ≡ Some rest.now) }
{
    text.strip_prefix(front)
}

/// Whether a byte is a decimal digit.
#[inline(always)]
fn is_digit(c: u8) -> bool
    ensures { result ≡ words.is_digit c }
{
    c >= b'0' && c <= b'9'
}

/// The place of the first byte that is no digit.
#[inline(always)]
fn first_other(text: &[u8]) -> Option<usize>
    ensures { result ≡ position (λ c. not (words.is_digit c)) text.now }
{
    text.iter().position(|c| !is_digit(*c))
}

/// How many digits a text begins with.
#[inline(always)]
fn digits_in(text: &[u8]) -> usize
    ensures count { result ≡ prefix_len words.is_digit text.now }
    ensures within { result ≤ length text.now }
{
    first_other(text).unwrap_or(text.len())
}

/// Whether these are digits without a leading zero.
#[inline(always)]
fn is_numeral(word: &[u8]) -> bool
    ensures { result ≡ words.is_numeral word.now }
{
    match word {
        [] => false,
        [first, rest @ ..] => (*first != b'0' || rest.is_empty()) && all_digits(word),
    }
}

fn all_digits(word: &[u8]) -> bool
    ensures { result ≡ list_all words.is_digit word.now }
{
    word.iter().all(|c| is_digit(*c))
}

/// The number that digits write, where it is at most `high`.
fn number_in(high: u64, word: &[u8]) -> Option<u64>
    ensures number { result ≡ words.number_in 0 high word.now }
    ensures range { IfSome result (λ n. n ≤ high) }
{
    let mut value: u128 = 0;
    for c in word {
        value = value * 10 + c.saturating_sub(b'0') as u128;
        if value > high as u128 {
            return None;
        }
    }
    if is_numeral(word) {
        Some(value as u64)
    } else {
        None
    }
}

/// The number at the front, at most `high`, and what stands behind it.
#[tactic(auto, unfolding(crate::specs::Fronts::number, crate::specs::Fronts::with))]
pub(crate) fn number_at(high: u64, text: &[u8]) -> Option<(u64, &[u8])>
    ensures number { MatchOption result (rules.number high text.now ≡ None)
        (λ x. rules.number high text.now ≡ Some (x.0, x.1.now)) }
    ensures range { IfSome result (λ x. x.0 ≤ high) }
{
    let (word, rest) = text.split_at(digits_in(text));
    Some((number_in(high, word)?, rest))
}

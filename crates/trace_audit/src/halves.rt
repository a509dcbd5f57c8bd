//! A text in two halves, round its first line `==`.

ghost use Rattle.std.specs.Prelude.{◌≡◌, ◌≤◌, length, MatchOption};
ghost use Rattle.trace_audit.specs.TextLines.{text_lines, LacksMark};
ghost use Rattle.trace_audit.specs.Watching.{HasHalves};

use crate::lines::{is_mark, next_line};

/// A text in two halves round its first line `==`.
#[derive(Clone, Copy)]
pub struct Halves<'a> {
    /// The text of the scenario, and how many lines it has.
    pub scenario: &'a [u8],
    pub count: usize,
    /// The text of the report.
    pub report: &'a [u8],
}

/// The halves of a text; `None` where it has no line `==`.
pub fn halves_of(text: &[u8]) -> Option<Halves<'_>>
    ensures { MatchOption result (LacksMark (text_lines text.now)) (λ h. HasHalves text.now h) }
{
    let mut count: usize = 0;
    let mut from: usize = 0;
    while let Some((line, rest)) = next_line(&text[from..]) {
        if is_mark(line) {
            return Some(Halves {
                scenario: &text[..from],
                count,
                report: rest,
            });
        }
        count += 1;
        from += line.len();
    }
    None
}

/// How many lines a text has.
pub fn line_count(text: &[u8]) -> usize
    ensures count { result ≡ length (text_lines text.now) }
    ensures few { result ≤ length text.now }
{
    let mut count: usize = 0;
    let mut rest = text;
    while let Some((_, behind)) = next_line(rest) {
        count += 1;
        rest = behind;
    }
    count
}

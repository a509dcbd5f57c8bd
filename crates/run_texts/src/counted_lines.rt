//! Lines that differ by a number alone, ten at a time.

ghost use Rattle.std.specs.Prelude.{◌≡◌, ℕ, ◌+◌, ◌<◌, ◌≤◌, ◌++◌, List, length};
ghost use Rattle.run_texts.specs.Counting.{lines_from, AreAlike};

use crate::buffer::Buffer;

/// How many bytes a line has at most.
const LINE: usize = 57;

/// How many bytes lines have at most that are put at once. They are ten at most, as there are ten digits.
pub const LINES: usize = 10 * LINE;

/// At which places of a line the digits stand that rise by one from it to the next line: the last ones of its numbers
/// that count up. Where that is one number, both are the same place.
#[derive(Clone, Copy)]
pub struct Digits {
    pub first: usize,
    pub second: usize,
}

/// Lines that count up: each is like the one before it, but for one or two of its numbers, which rise by one.
pub trait CountedLines {
    /// The line that is so many behind the first.
    ghost line: { Self → ℕ → List ℕ };

    /// How many lines follow on the first.
    ghost more: { Self → ℕ };

    /// Its numbers can be written.
    ghost is_run: { Self → Type 0 };

    /// How many lines follow on the first.
    fn followers(&self) -> u64
        ensures { result ≡ more self.now };

    /// Puts the line that is `j` behind the first behind the bytes that wait, and says where its digits stand.
    fn add_line(&self, j: u64, waiting: &mut Buffer) -> Digits
        requires room { length waiting.old + 57 ≤ 32768 }
        requires run { is_run self.now }
        requires within { j ≤ more self.now }
        ensures text { waiting.new ≡ waiting.old ++ line self.now j }
        ensures short { length waiting.new ≤ length waiting.old + 57 }
        ensures alike { AreAlike (line self.now) j (more self.now) result.first result.second };
}

/// Puts lines behind the bytes that wait, from that on which is `j` behind the first, as many as differ in their last
/// digits alone, and says how many. The first of them is put together, and the others are like it but for these digits.
pub fn add_lines<L: CountedLines>(waiting: &mut Buffer, lines: &L, j: u64) -> u64
    requires room { length waiting.old + 570 ≤ 32768 }
    requires run { L.is_run lines.now }
    requires within { j ≤ L.more lines.now }
    ensures text { waiting.new ≡ waiting.old ++ lines_from (L.line lines.now) j result }
    ensures some { 0 < result }
    ensures within { j + result ≤ L.more lines.now + 1 }
{
    let from = waiting.len();
    let digits = lines.add_line(j, waiting);
    let put = &waiting.as_slice()[from..];
    let first = put[digits.first];
    let second = put[digits.second];
    let alike = (b'9' - first).min(b'9' - second);
    let more = u64::from(alike).min(lines.followers() - j);
    if more == 0 {
        return 1;
    }
    let mut room = [0; LINE];
    let line = &mut room[..waiting.len() - from];
    line.copy_from_slice(&waiting.as_slice()[from..]);
    for k in 0..more as u8 {
        let by = k + 1;
        waiting.push_with(line, digits.first, first + by, digits.second, second + by);
    }
    more + 1
}

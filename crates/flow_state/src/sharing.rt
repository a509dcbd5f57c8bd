//! Bytes that are kept once, though several entries have them.

ghost use Rattle.std.specs.Prelude.{◌≡◌, ℕ, ◌+◌, ◌-◌, ◌%◌, ◌^◌, ◌<◌, ◌≤◌, List, length, take, drop, true, Some};
ghost use Rattle.tas_model.specs.Endpoint.{Endpoint};
ghost use Rattle.tas_model.specs.Segments.{seq_of, seq_at, peer_first};
ghost use Rattle.flow_state.specs.Stands.{Stands};
ghost use Rattle.flow_state.specs.Sharing.{place_from};

use crate::call::{Answer, CallIn};
use crate::parts::Parts;
use tas_num::Seq;

/// Where the bytes of an entry's reply are kept.
#[derive(Clone, Copy)]
pub struct Kept {
    /// Where they start.
    pub start: usize,
    /// How many bytes are kept in all then.
    pub end: usize,
}

/// Where to keep the `n` bytes that stand from `used` on, behind all that are kept: as the last ones of these, or as
/// those from `guess` on, where they are the same, else where they stand.
pub fn keep(bytes: &[u8], used: usize, n: usize, guess: Option<usize>) -> Kept
    requires { used + n ≤ length bytes.now }
    ensures same { take n (drop result.start bytes.now) ≡ take n (drop used bytes.now) }
    ensures within { result.start + n ≤ result.end }
    ensures before { used ≤ result.end }
    ensures past { result.end ≤ used + n }
    ensures last { n ≤ used → take n (drop (used - n) bytes.now) ≡ take n (drop used bytes.now) → result.end ≡ used }
    ensures guessed { (from : ℕ) → guess ≡ Some from → from + n ≤ used
        → take n (drop from bytes.now) ≡ take n (drop used bytes.now) → result.end ≡ used }
{
    if n <= used && stand_at(bytes, used, n, used - n) {
        return Kept {
            start: used - n,
            end: used,
        };
    }
    if let Some(from) = guess {
        if stand_at(bytes, used, n, from) {
            return Kept {
                start: from,
                end: used,
            };
        }
    }
    Kept {
        start: used,
        end: used + n,
    }
}

/// Whether the `n` bytes that stand from `used` on stand from `from` on too, before these.
fn stand_at(bytes: &[u8], used: usize, n: usize, from: usize) -> bool
    requires { used + n ≤ length bytes.now }
    ensures within { result ≡ true → from + n ≤ used }
    ensures same { result ≡ true → take n (drop from bytes.now) ≡ take n (drop used bytes.now) }
    ensures found { from + n ≤ used → take n (drop from bytes.now) ≡ take n (drop used bytes.now) → result ≡ true }
{
    if used < n || used - n < from {
        return false;
    }
    // `==` compares many bytes at a time.
    &bytes[from..from + n] == &bytes[used..used + n]
}

/// A byte of a stream that is kept, and where. The stream's next ones may stand behind it, as they came.
///
/// It is a guess: whoever looks where it says compares. So its place has 32 bits, and past 4 GiB it guesses wrong.
#[derive(Clone, Copy)]
pub struct Anchor {
    /// The byte's sequence number.
    pub seq: Seq,
    /// Where it stands.
    pub at: u32,
}

impl Anchor {
    /// Where the byte with this number would stand.
    fn place(self, seq: Seq) -> usize
        ensures { result ≡ place_from self seq }
    {
        self.at.wrapping_add(seq.minus(self.seq)) as usize
    }
}

/// The last runs of a stream's bytes that stand behind each other, by the first byte of each, the newest run first.
#[derive(Clone, Copy)]
struct Runs {
    firsts: [Anchor; 4],
}

impl Runs {
    /// No bytes are known.
    fn new() -> Runs {
        Runs {
            firsts: [Anchor { seq: Seq(0), at: 0 }; 4],
        }
    }

    /// Where the byte with this number would stand: in the newest run that does not begin behind it.
    fn place(&self, seq: Seq) -> Option<usize> {
        for first in &self.firsts {
            if seq.minus(first.seq) < 0x8000_0000 {
                return Some(first.place(seq));
            }
        }
        None
    }

    /// Notes that the byte with this number stands at `at`: it is one of the newest run, or begins a new one.
    fn note(&mut self, seq: Seq, at: usize) {
        let [first, second, third, _] = self.firsts;
        if first.place(seq) != at {
            let newest = Anchor {
                seq,
                at: (at % 0x1_0000_0000) as u32,
            };
            self.firsts = [newest, first, second, third];
        }
    }
}

/// The sequence numbers of the next byte that a Send takes, and of the next that a Recv reads.
#[derive(Clone, Copy)]
pub struct NextBytes {
    take: Seq,
    read: Seq,
}

/// Those of a flow.
pub fn next_bytes(parts: &Parts) -> NextBytes
    ensures take { (e : Endpoint) → Stands parts.now e → result.take ≡ seq_of e (1 + length e.tx.out) }
    ensures read { (e : Endpoint) → Stands parts.now e → result.read ≡ seq_at (peer_first e) (1 + e.rx.read) }
{
    NextBytes {
        take: seq_of_byte(parts.iss, parts.tx.end()),
        read: seq_of_byte(parts.irs, parts.rx.base()),
    }
}

/// The sequence number of the `i`-th byte of the stream with this first number, counted from 0: the SYN has the first.
fn seq_of_byte(first: Seq, i: u128) -> Seq
    requires { i < 2 ^ 127 }
    ensures { result.0 ≡ (first.0 + (1 + i)) % 2 ^ 32 }
{
    first.plus(((1 + i) % 0x1_0000_0000) as u32)
}

/// What is known of where the bytes of both streams are kept.
#[derive(Clone, Copy)]
pub struct Known {
    /// The bytes that Sends took.
    taken: Runs,
    /// The bytes that came.
    came: Runs,
}

impl Known {
    /// Nothing.
    pub fn new() -> Known {
        Known {
            taken: Runs::new(),
            came: Runs::new(),
        }
    }

    /// Where the bytes of a reply may be kept already: those that are sent where a Send took them, those that are read
    /// where they came.
    pub fn guess(&self, answer: &Answer, next: NextBytes) -> Option<usize> {
        match answer {
            Answer::Sent { head, .. } => self.taken.place(head.seq),
            Answer::Got { .. } => self.came.place(next.read),
            _ => None,
        }
    }

    /// Notes where the bytes of an entry are kept: those that were taken at `start`, those that came at `end`.
    pub fn note(&mut self, call: &CallIn<'_>, answer: &Answer, next: NextBytes, kept: Kept) {
        if let Answer::Took { .. } = answer {
            self.taken.note(next.take, kept.start);
        }
        if let CallIn::Rx { seg, .. } = call {
            if !seg.payload.is_empty() {
                self.came.note(seg.seq, kept.end);
            }
        }
    }
}

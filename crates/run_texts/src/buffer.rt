//! Bytes that wait to be written, in memory that is taken once.

ghost use Rattle.std.specs.Prelude.{◌≡◌, ◌+◌, ◌*◌, ◌≤◌, ◌++◌, ◌<◌, [], length, set, decimal, IfOk};
ghost use Rattle.tas_runs.specs.Report.{hex_bytes};

use crate::digit_count::digit_count;
use crate::hex_digits::write_digits;
use std::alloc::{AllocError, Global};
use std::marker::Model;

/// How many bytes wait at most before they go to the sink.
pub const ROOM: usize = 32_768;

/// Bytes that wait, at most 32,768 of them, seen as their list. All its memory is taken at the start.
#[derive(Drop)]
pub struct Buffer {
    room: Vec<u8>,
    /// How many bytes wait. Those behind them are room.
    filled: usize,
}

impl Model for Buffer {
    ghost use Rattle.std.specs.Prelude.{◌≡◌, ◌≤◌, List, ℕ, take, vec_len};

    ghost Value = { List ℕ };

    ghost view = { λ b. take b.filled b.room.items };

    ghost invariant = { λ b. (b.filled ≤ 32768) × (vec_len b.room ≡ 32768) };
}

impl Buffer {
    /// A buffer in which nothing waits. The error is want of memory.
    pub fn new(alloc: Global) -> Result<Buffer, AllocError>
        ensures { IfOk result (λ b. b ≡ []) }
    {
        Ok(Buffer {
            room: Vec::from_elem(alloc, 0, ROOM)?,
            filled: 0,
        })
    }

    /// The bytes that wait.
    pub fn as_slice(&self) -> &[u8]
        ensures { result.now ≡ self.now }
    {
        &self.room[..self.filled]
    }

    /// For how many bytes more there is room.
    pub fn free(&self) -> usize
        ensures free { result + length self.now ≡ 32768 }
    {
        ROOM - self.filled
    }

    /// How many bytes wait.
    pub fn len(&self) -> usize
        ensures { result ≡ length self.now }
    {
        self.filled
    }

    /// Nothing waits any more.
    pub fn clear(&mut self)
        ensures { self.new ≡ [] }
    {
        self.filled = 0;
    }

    /// Puts bytes behind those that wait.
    #[inline(always)]
    pub fn push(&mut self, bytes: &[u8])
        requires { length self.old + length bytes.now ≤ 32768 }
        ensures { self.new ≡ self.old ++ bytes.now }
    {
        let end = self.filled + bytes.len();
        self.room[self.filled..end].copy_from_slice(bytes);
        self.filled = end;
    }

    /// Puts bytes behind those that wait, with others in two of their places.
    #[inline(always)]
    pub fn push_with(&mut self, bytes: &[u8], first: usize, one: u8, second: usize, other: u8)
        requires room { length self.old + length bytes.now ≤ 32768 }
        requires first { first < length bytes.now }
        requires second { second < length bytes.now }
        ensures { self.new ≡ self.old ++ set (set bytes.now first one) second other }
    {
        let end = self.filled + bytes.len();
        let room = &mut self.room[self.filled..end];
        room.copy_from_slice(bytes);
        room[first] = one;
        room[second] = other;
        self.filled = end;
    }

    /// Puts the digit of a number below 10 behind those that wait.
    #[inline(always)]
    pub fn push_digit(&mut self, number: u8)
        requires room { length self.old < 32768 }
        requires small { number < 10 }
        ensures { self.new ≡ self.old ++ decimal number }
    {
        self.push(&[b'0' + number]);
    }

    /// Puts the decimal digits of a number behind those that wait, right where they belong.
    #[inline(never)]
    pub fn push_number(&mut self, number: u64)
        requires { length self.old + length (decimal number) ≤ 32768 }
        ensures { self.new ≡ self.old ++ decimal number }
    {
        let end = self.filled + digit_count(number);
        itoa::write_digits(number, &mut self.room, end);
        self.filled = end;
    }

    /// Puts the digits of bytes behind those that wait: two of lower case a byte, the higher one first.
    #[inline(always)]
    pub fn push_digits(&mut self, bytes: &[u8])
        requires { length self.old + 2 * length bytes.now ≤ 32768 }
        ensures { self.new ≡ self.old ++ hex_bytes bytes.now }
    {
        let end = self.filled + 2 * bytes.len();
        write_digits(bytes, &mut self.room[self.filled..end]);
        self.filled = end;
    }
}

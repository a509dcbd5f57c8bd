//! Cells of a ring, in memory that is touched only where it is used.

ghost use Rattle.std.specs.Prelude.{◌≡◌, ℕ, ◌+◌, ◌-◌, ◌^◌, ◌<◌, ◌≤◌, ◌++◌, length, take, drop, replicate, vec_len};
ghost use Rattle.std.specs.Prelude.{vec_capacity, true, false, IfOk};
ghost use Rattle.payload_ring.specs.Window.{overlaid};
ghost use Rattle.payload_ring.specs.Turned.{turned};

use crate::filling::fill_with_zeros;
use std::alloc::{AllocError, Global};
use std::marker::Model;

/// Cells of a byte each, seen as their list. They are zero at first.
///
/// Their memory is taken once, and can be given back. A cell is written to only once it is used, or one behind it:
/// memory that is never touched costs a machine nothing.
#[derive(Drop)]
pub struct Cells {
    /// The first cells. Those behind them are zero.
    bytes: Vec<u8>,
    size: u32,
    /// There is memory for all of them.
    ready: bool,
}

impl Model for Cells {
    ghost use Rattle.std.specs.Prelude.{◌≡◌, ◌++◌, ◌-◌, ◌≤◌, true, replicate, vec_len, vec_capacity};
    ghost use Rattle.payload_ring.specs.Turned.{Store};

    ghost Value = { Store };

    ghost view = { λ c. record {
      cells = c.bytes.items ++ replicate (c.size - vec_len c.bytes) 0;
      ready = c.ready;
    } };

    ghost invariant = { λ c. (vec_len c.bytes ≤ c.size) × (c.ready ≡ true → c.size ≤ vec_capacity c.bytes) };
}

impl Cells {
    /// So many cells. The error is want of memory.
    pub fn new(alloc: Global, size: u32) -> Result<Cells, AllocError>
        ensures { IfOk result (λ c. c ≡ record { cells = replicate size 0; ready = true }) }
    {
        Ok(Cells {
            bytes: Vec::with_capacity(alloc, size as usize)?,
            size,
            ready: true,
        })
    }

    /// Makes all cells zero and gives their memory back.
    pub fn release(&mut self)
        ensures { self.new ≡ record { cells = replicate (length self.old.cells) 0; ready = false } }
    {
        self.bytes.clear();
        self.bytes.shrink_to_fit();
        self.ready = false;
    }

    /// How many cells there are.
    pub fn len(&self) -> usize
        ensures { result ≡ length self.now.cells }
    {
        self.size as usize
    }

    /// Writes a piece over the cells at the offset `at` from the cell `start` on, round the end.
    pub fn put_round(&mut self, start: usize, at: usize, piece: &[u8])
        requires ready { self.old.ready ≡ true }
        requires start { start < length self.old.cells }
        requires fits { at + length piece.now ≤ length self.old.cells }
        requires small { length self.old.cells < 2 ^ 32 }
        ensures cells { turned start self.new.cells ≡ overlaid at piece.now (turned start self.old.cells) }
        ensures len { length self.new.cells ≡ length self.old.cells }
        ensures ready { self.new.ready ≡ self.old.ready }
    {
        let index = index_of(self.len(), start, at);
        let (front, back) = piece.split_at(piece.len().min(self.len() - index));
        self.put(index, front);
        self.put(0, back);
    }

    /// Reads the cells at the offset `at` from the cell `start` on, round the end.
    pub fn copy_round(&self, start: usize, at: usize, out: &mut [u8])
        requires start { start < length self.now.cells }
        requires fits { at + length out.old ≤ length self.now.cells }
        requires small { length self.now.cells < 2 ^ 32 }
        ensures { out.new ≡ take (length out.old) (drop at (turned start self.now.cells)) }
    {
        let index = index_of(self.len(), start, at);
        let count = out.len().min(self.len() - index);
        let (front, back) = out.split_at_mut(count);
        self.copy(index, front);
        self.copy(0, back);
    }

    /// Writes a piece over the cells from the index `at` on.
    fn put(&mut self, at: usize, piece: &[u8])
        requires ready { self.old.ready ≡ true }
        requires fits { at + length piece.now ≤ length self.old.cells }
        requires small { length self.old.cells < 2 ^ 32 }
        ensures cells { self.new.cells ≡ overlaid at piece.now self.old.cells }
        ensures len { length self.new.cells ≡ length self.old.cells }
        ensures ready { self.new.ready ≡ self.old.ready }
    {
        let end = at + piece.len();
        fill_with_zeros(&mut self.bytes, end);
        write_over(&mut self.bytes, at, piece);
    }

    /// Reads the cells from the index `at` on.
    fn copy(&self, at: usize, out: &mut [u8])
        requires { at + length out.old ≤ length self.now.cells }
        ensures { out.new ≡ take (length out.old) (drop at self.now.cells) }
    {
        let written = &self.bytes[at.min(self.bytes.len())..];
        copy_front(written, out);
    }
}

/// The index of the cell at the offset `at` from the cell `start` on, in a ring of `size` cells.
pub fn index_of(size: usize, start: usize, at: usize) -> usize
    requires start { start < size }
    requires at { at ≤ size }
    requires small { size < 2 ^ 32 }
    ensures before { start + at < size → result ≡ start + at }
    ensures past { size ≤ start + at → result ≡ start + at - size }
{
    let index = start + at;
    if index < size { index } else { index - size }
}

/// Writes a piece over the bytes from `at` on.
fn write_over(bytes: &mut Vec<u8>, at: usize, piece: &[u8])
    requires { at + length piece.now ≤ vec_len bytes.old }
    ensures items { bytes.new.items ≡ overlaid at piece.now bytes.old.items }
    ensures len { vec_len bytes.new ≡ vec_len bytes.old }
    ensures capacity { vec_capacity bytes.new ≡ vec_capacity bytes.old }
{
    bytes[at..at + piece.len()].copy_from_slice(piece);
}

/// Copies the first bytes, and zeros behind them where there are too few.
fn copy_front(bytes: &[u8], out: &mut [u8])
    ensures { out.new ≡ take (length out.old) bytes.now ++ replicate (length out.old - length bytes.now) 0 }
{
    let count = bytes.len().min(out.len());
    let (front, back) = out.split_at_mut(count);
    front.copy_from_slice(&bytes[..count]);
    back.fill(0);
}

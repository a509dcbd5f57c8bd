//! A ring: a window of fixed size on a stream of bytes.

ghost use Rattle.std.specs.Prelude.{◌≡◌, ℕ, ◌+◌, ◌-◌, ◌^◌, ◌<◌, ◌≤◌, ◌++◌, [], true, length, take, drop, replicate};
ghost use Rattle.std.specs.Prelude.{IfOk};
ghost use Rattle.payload_ring.specs.Window.{Window, IsWindow, end_of, cells_of, room_of, overlaid, with_cells};
ghost use Rattle.payload_ring.specs.Window.{released, Holds};

use crate::cells::{Cells, index_of};
use std::alloc::{AllocError, Global};
use std::marker::Model;

/// A window of fixed size on a stream of bytes, in memory that is taken once, and can be given back where no byte
/// stands in order.
///
/// A place is the number of a byte in the stream. The bytes from `base` to below `end` stand in order; those ahead of
/// them, up to below `base + size`, can be placed before the ones between have come. So it serves as a flow's send
/// buffer, and as its receive buffer for segments that come out of order (RFC 9293, section 3.10.7.4).
#[derive(Drop)]
pub struct Ring {
    cells: Cells,
    /// The cell of the byte at `base`.
    start: usize,
    /// A place.
    base: u128,
    /// How many bytes stand in order.
    len: u32,
}

impl Model for Ring {
    ghost use Rattle.std.specs.Prelude.{ℕ, ◌+◌, ◌^◌, ◌<◌, ◌≤◌, take, drop, length};
    ghost use Rattle.payload_ring.specs.Window.{Window};
    ghost use Rattle.payload_ring.specs.Turned.{turned};

    ghost Value = { Window };

    ghost view = { λ r. record {
      size = length r.cells.cells;
      base = r.base;
      bytes = take r.len (turned r.start r.cells.cells);
      ahead = drop r.len (turned r.start r.cells.cells);
      ready = r.cells.ready;
    } };

    ghost invariant = { λ r. (r.start < length r.cells.cells) × (r.len ≤ length r.cells.cells)
        × (length r.cells.cells ≤ 1048576) × (r.base + r.len < 2 ^ 127) };
}

impl Ring {
    /// An empty ring of `size` bytes, at place 0. The error is want of memory.
    pub fn new(alloc: Global, size: u32) -> Result<Ring, AllocError>
        requires some { 1 ≤ size }
        requires limit { size ≤ 1048576 }
        ensures empty { IfOk result (λ ring. ring ≡ record {
          size = size;
          base = 0;
          bytes = [];
          ahead = replicate size 0;
          ready = true;
        }) }
        ensures window { IfOk result (λ ring. IsWindow ring) }
    {
        Ok(Ring {
            cells: Cells::new(alloc, size)?,
            start: 0,
            base: 0,
            len: 0,
        })
    }

    /// How many bytes the ring has room for in all.
    pub fn size(&self) -> u32
        ensures size { result ≡ self.now.size }
        ensures window { IsWindow self.now }
    {
        self.cells.len() as u32
    }

    /// The place of the first byte that is kept.
    pub fn base(&self) -> u128
        ensures base { result ≡ self.now.base }
        ensures window { IsWindow self.now }
    {
        self.base
    }

    /// The place past the last byte in order.
    pub fn end(&self) -> u128
        ensures end { result ≡ end_of self.now }
        ensures window { IsWindow self.now }
    {
        self.base + u128::from(self.len)
    }

    /// How many bytes stand in order.
    pub fn len(&self) -> u32
        ensures len { result ≡ length self.now.bytes }
        ensures window { IsWindow self.now }
    {
        self.len
    }

    /// How many bytes more can stand in order.
    pub fn room(&self) -> u32
        ensures room { result ≡ room_of self.now }
        ensures window { IsWindow self.now }
    {
        self.cells.len() as u32 - self.len
    }

    /// Gives the memory back, where no byte stands in order. What stands ahead is lost, and no more bytes can be put.
    pub fn release(&mut self)
        requires empty { self.old.bytes ≡ [] }
        ensures { self.new ≡ released self.old }
    {
        self.cells.release();
        self.start = 0;
        self.len = 0;
    }

    /// Where no byte stands in order, the next one goes to the first cell again: a ring that is emptied often touches
    /// few cells then. What stands ahead is lost.
    pub fn rewind(&mut self)
        requires empty { self.old.bytes ≡ [] }
        ensures same { Holds self.new self.old.size self.old.base [] }
        ensures ready { self.new.ready ≡ self.old.ready }
    {
        self.start = 0;
        self.len = 0;
    }

    /// Puts bytes at the places from `pos` on, over what stands there. The end stays.
    pub fn put_at(&mut self, pos: u128, bytes: &[u8])
        requires ready { self.old.ready ≡ true }
        requires from { self.old.base ≤ pos }
        requires below { pos + length bytes.now ≤ self.old.base + self.old.size }
        ensures cells { self.new ≡ with_cells (overlaid (pos - self.old.base) bytes.now (cells_of self.old)) self.old }
        ensures ahead { end_of self.old ≤ pos
            → self.new ≡ record self.old { ahead = overlaid (pos - end_of self.old) bytes.now self.old.ahead } }
    {
        let at = (pos - self.base) as usize;
        self.cells.put_round(self.start, at, bytes);
    }

    /// Puts bytes behind those in order.
    pub fn append(&mut self, bytes: &[u8])
        requires ready { self.old.ready ≡ true }
        requires room { length bytes.now ≤ room_of self.old }
        requires far { end_of self.old + length bytes.now < 2 ^ 127 }
        ensures { self.new ≡ record self.old {
          bytes = self.old.bytes ++ bytes.now;
          ahead = drop (length bytes.now) self.old.ahead;
        } }
    {
        self.cells.put_round(self.start, self.len as usize, bytes);
        self.len += bytes.len() as u32;
    }

    /// Takes the next `n` bytes ahead, as they were put there, among those in order.
    pub fn advance(&mut self, n: u32)
        requires room { n ≤ room_of self.old }
        requires far { end_of self.old + n < 2 ^ 127 }
        ensures { self.new ≡ record self.old {
          bytes = self.old.bytes ++ take n self.old.ahead;
          ahead = drop n self.old.ahead;
        } }
    {
        self.len += n;
    }

    /// Lets the first `n` bytes go. Their cells become the last ones ahead.
    pub fn drop_front(&mut self, n: u32)
        requires { n ≤ length self.old.bytes }
        ensures { self.new ≡ record self.old {
          base = self.old.base + n;
          bytes = drop n self.old.bytes;
          ahead = self.old.ahead ++ take n self.old.bytes;
        } }
    {
        self.start = index_of(self.cells.len(), self.start, n as usize);
        self.base += u128::from(n);
        self.len -= n;
    }

    /// Copies what stands at the places from `pos` on, in order or ahead, into the whole of `buf`.
    pub fn copy_out(&self, pos: u128, buf: &mut [u8])
        requires from { self.now.base ≤ pos }
        requires below { pos + length buf.old ≤ self.now.base + self.now.size }
        ensures cells { buf.new ≡ take (length buf.old) (drop (pos - self.now.base) (cells_of self.now)) }
        ensures in_order { pos + length buf.old ≤ end_of self.now
            → buf.new ≡ take (length buf.old) (drop (pos - self.now.base) self.now.bytes) }
        ensures ahead { end_of self.now ≤ pos
            → buf.new ≡ take (length buf.old) (drop (pos - end_of self.now) self.now.ahead) }
    {
        let at = (pos - self.base) as usize;
        self.cells.copy_round(self.start, at, buf);
    }
}

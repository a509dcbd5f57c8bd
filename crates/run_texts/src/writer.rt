//! Texts on their way to a sink.

ghost use Rattle.std.specs.Prelude.{◌≡◌, ℕ, ◌+◌, ◌*◌, ◌<◌, ◌≤◌, ◌++◌, [], List, length, IfOk, OnOk, IfSome};
ghost use Rattle.tas_runs.specs.Report.{hex_bytes};
ghost use Rattle.run_texts.specs.Counting.{lines_from};
ghost use Rattle.run_texts.specs.Writes.{Writes};

use crate::buffer::Buffer;
use crate::counted_lines::{CountedLines, LINES, add_lines};
use crate::text::Text;
use std::alloc::{AllocError, Global};
use std::marker::Model;
use tas_num::{IoFault, Sink, write_all};

/// How many bytes a text has at most that is put together at once.
const TEXT: usize = 570;

/// Bytes that wait to be written to a sink, seen as their list.
#[derive(Drop)]
pub struct Writer {
    waiting: Buffer,
}

impl Model for Writer {
    ghost use Rattle.std.specs.Prelude.{List, ℕ};

    ghost Value = { List ℕ };

    ghost view = { λ w. w.waiting };
}

impl Writer {
    /// A writer before which nothing waits. The error is want of memory.
    pub fn new(alloc: Global) -> Result<Writer, AllocError>
        ensures { IfOk result (λ w. w ≡ []) }
    {
        Ok(Writer {
            waiting: Buffer::new(alloc)?,
        })
    }

    /// Writes all that waits. After Ok nothing waits.
    pub fn finish<K: Sink>(&mut self, sink: &mut K) -> Result<(), IoFault>
        ensures writes { Writes (K.state sink.old) self.old result (K.state sink.new) self.new [] }
        ensures empty { OnOk result (self.new ≡ []) }
    {
        flush(sink, &mut self.waiting)
    }

    /// Writes these bytes behind all that waits.
    #[inline(always)]
    pub fn put<K: Sink>(&mut self, sink: &mut K, bytes: &[u8]) -> Result<(), IoFault>
        ensures { Writes (K.state sink.old) self.old result (K.state sink.new) self.new bytes.now }
    {
        push(sink, &mut self.waiting, bytes)
    }

    /// Writes the digits of bytes: two of lower case a byte, the higher one first.
    #[inline(always)]
    pub fn put_hex<K: Sink>(&mut self, sink: &mut K, bytes: &[u8]) -> Result<(), IoFault>
        ensures { Writes (K.state sink.old) self.old result (K.state sink.new) self.new (hex_bytes bytes.now) }
    {
        push_hex(sink, &mut self.waiting, bytes)
    }

    /// Writes a text.
    #[inline(always)]
    pub fn put_text<K: Sink, T: Text>(&mut self, sink: &mut K, text: &T) -> Result<(), IoFault>
        requires { T.most ≤ 570 }
        ensures { Writes (K.state sink.old) self.old result (K.state sink.new) self.new (T.text text.now) }
    {
        push_text(sink, &mut self.waiting, text)
    }

    /// Writes all of these lines.
    pub fn put_lines<K: Sink, L: CountedLines>(
        &mut self,
        sink: &mut K,
        lines: &L,
    ) -> Result<(), IoFault>
        requires { L.is_run lines.now }
        ensures { Writes (K.state sink.old) self.old result (K.state sink.new) self.new
            (lines_from (L.line lines.now) 0 (L.more lines.now + 1)) }
    {
        push_lines(sink, &mut self.waiting, lines)
    }
}

/// Writes all that waits. After Ok nothing waits. It is rare, so what comes often stays short.
#[inline(never)]
fn flush<K: Sink>(sink: &mut K, waiting: &mut Buffer) -> Result<(), IoFault>
    ensures writes { Writes (K.state sink.old) waiting.old result (K.state sink.new) waiting.new [] }
    ensures empty { OnOk result (waiting.new ≡ []) }
{
    write_all(sink, waiting.as_slice())?;
    waiting.clear();
    Ok(())
}

/// Writes all that waits where there is no room for so many bytes more.
#[inline(always)]
fn make_room<K: Sink>(sink: &mut K, waiting: &mut Buffer, count: usize) -> Result<(), IoFault>
    requires { count ≤ 32768 }
    ensures writes { Writes (K.state sink.old) waiting.old result (K.state sink.new) waiting.new [] }
    ensures room { OnOk result (length waiting.new + count ≤ 32768) }
{
    if count > waiting.free() {
        flush(sink, waiting)
    } else {
        Ok(())
    }
}

/// Writes a text behind all that waits.
#[inline(always)]
fn push_text<K: Sink, T: Text>(sink: &mut K, waiting: &mut Buffer, text: &T) -> Result<(), IoFault>
    requires { T.most ≤ 570 }
    ensures { Writes (K.state sink.old) waiting.old result (K.state sink.new) waiting.new (T.text text.now) }
{
    make_room(sink, waiting, TEXT)?;
    text.add_to(waiting);
    Ok(())
}

/// Writes lines behind all that waits, as many at a time as differ in their last digits alone.
fn push_lines<K: Sink, L: CountedLines>(
    sink: &mut K,
    waiting: &mut Buffer,
    lines: &L,
) -> Result<(), IoFault>
    requires { L.is_run lines.now }
    ensures { Writes (K.state sink.old) waiting.old result (K.state sink.new) waiting.new
        (lines_from (L.line lines.now) 0 (L.more lines.now + 1)) }
{
    let followers = lines.followers();
    let mut done: u128 = 0;
    while done <= u128::from(followers) {
        make_room(sink, waiting, LINES)?;
        done += u128::from(add_lines(waiting, lines, done as u64));
    }
    Ok(())
}

/// Writes bytes behind all that waits. Mostly there is room for all of them.
#[inline(always)]
fn push<K: Sink>(sink: &mut K, waiting: &mut Buffer, bytes: &[u8]) -> Result<(), IoFault>
    ensures { Writes (K.state sink.old) waiting.old result (K.state sink.new) waiting.new bytes.now }
{
    if bytes.len() <= waiting.free() {
        waiting.push(bytes);
        return Ok(());
    }
    push_pieces(sink, waiting, bytes)
}

/// Writes bytes behind all that waits, as much at a time as there is room for.
#[inline(never)]
fn push_pieces<K: Sink>(sink: &mut K, waiting: &mut Buffer, bytes: &[u8]) -> Result<(), IoFault>
    ensures { Writes (K.state sink.old) waiting.old result (K.state sink.new) waiting.new bytes.now }
{
    let mut done = 0;
    while done < bytes.len() {
        make_room(sink, waiting, 1)?;
        let end = bytes.len().min(done.saturating_add(waiting.free()));
        waiting.push(&bytes[done..end]);
        done = end;
    }
    Ok(())
}

/// Writes the digits of bytes behind all that waits. Often there are none, and mostly there is room for all of them.
#[inline(always)]
fn push_hex<K: Sink>(sink: &mut K, waiting: &mut Buffer, bytes: &[u8]) -> Result<(), IoFault>
    ensures { Writes (K.state sink.old) waiting.old result (K.state sink.new) waiting.new (hex_bytes bytes.now) }
{
    if bytes.is_empty() {
        return Ok(());
    }
    if bytes.len() <= waiting.free() / 2 {
        waiting.push_digits(bytes);
        return Ok(());
    }
    push_hex_pieces(sink, waiting, bytes)
}

/// Writes the digits of bytes behind all that waits, as many at a time as there is room for.
#[inline(never)]
fn push_hex_pieces<K: Sink>(sink: &mut K, waiting: &mut Buffer, bytes: &[u8]) -> Result<(), IoFault>
    ensures { Writes (K.state sink.old) waiting.old result (K.state sink.new) waiting.new (hex_bytes bytes.now) }
{
    let mut done = 0;
    while done < bytes.len() {
        make_room(sink, waiting, 2)?;
        let end = bytes.len().min(done.saturating_add(waiting.free() / 2));
        waiting.push_digits(&bytes[done..end]);
        done = end;
    }
    Ok(())
}

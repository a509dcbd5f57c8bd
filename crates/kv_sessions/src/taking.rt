//! Bytes are taken, line by line and block by block.

ghost use Rattle.std.specs.Prelude.{◌≡◌, ◌≤◌, ◌<◌, ◌+◌, ◌^◌, ◌++◌, ◌∷◌, [], None, length, take, IfOk, OnErr, position};
ghost use Rattle.kv_sessions.specs.Stored.{Map};
ghost use Rattle.kv_sessions.specs.Lines as lines;
ghost use Rattle.kv_sessions.specs.Outcomes as outcomes;
ghost use Rattle.kv_sessions.specs.Commands as commands;
ghost use Rattle.kv_sessions.specs.Sessions as sessions;
ghost use Rattle.kv_sessions.specs.Steps as steps;

use crate::mode::{Block, Mode};
use crate::replies::{delete, say, say_values};
use crate::request::{Request, request_in};
use crate::store::{Held, Store};
use crate::words::{is, place_of, text_of};
use crate::{LONGEST_LINE, MOST_DATA, MOST_KEYS};
use std::alloc::{AllocError, Global};

/// At the beginning of a line.
fn at_line(alloc: Global) -> Mode
    ensures stands { steps.standing_in result ≡ sessions.InLine [] }
    ensures short { steps.IsShort result }
{
    Mode::Line(Vec::new(alloc))
}

/// Takes all of a piece, command by command, and gives what they answer. After an error the store is as whole commands
/// left it.
pub(crate) fn take_piece(
    alloc: Global,
    mut mode: Mode,
    store: &mut Store,
    bytes: &[u8],
) -> Result<(Mode, Vec<u8>), AllocError>
    requires short { steps.IsShort mode }
    ensures answered { IfOk result (λ r.
        sessions.Answered (steps.standing_in mode) store.old bytes.now r.1.items (steps.standing_in r.0) store.new) }
    ensures short { IfOk result (λ r. steps.IsShort r.0) }
    ensures whole { OnErr result (sessions.HasWhole (steps.standing_in mode) store.old bytes.now store.new) }
{
    let mut replies = Vec::new(alloc);
    let mut rest = bytes;
    while !rest.is_empty() {
        let (later, taken) = take_some(alloc, mode, store, rest, &mut replies)?;
        mode = later;
        rest = &rest[taken..];
    }
    Ok((mode, replies))
}

/// Takes bytes to the end of a line or of a block, or all, and tells how many. After an error the store is as before.
fn take_some(
    alloc: Global,
    mode: Mode,
    store: &mut Store,
    bytes: &[u8],
    replies: &mut Vec<u8>,
) -> Result<(Mode, usize), AllocError>
    requires short { steps.IsShort mode }
    requires some { 0 < length bytes.now }
    ensures some { IfOk result (λ r. 0 < r.1) }
    ensures within { IfOk result (λ r. r.1 ≤ length bytes.now) }
    ensures leads { IfOk result (λ r. steps.Leads (steps.standing_in mode) store.old replies.old.items
        (take r.1 bytes.now) (steps.standing_in r.0) store.new replies.new.items) }
    ensures short { IfOk result (λ r. steps.IsShort r.0) }
    ensures err { OnErr result (store.new ≡ store.old) }
{
    match mode {
        Mode::Line(line) => take_line(alloc, line, store, bytes, replies),
        Mode::Block(block) => {
            let missing = block.len as usize + 2 - block.bytes.len();
            let taken = missing.min(bytes.len());
            let later = take_block(alloc, block, store, &bytes[..taken], replies)?;
            Ok((later, taken))
        }
        Mode::Dropped(missing) => {
            let taken = missing.min(bytes.len() as u64);
            let later = take_dropped(alloc, missing - taken, replies)?;
            Ok((later, taken as usize))
        }
        Mode::Over => Ok((Mode::Over, bytes.len())),
    }
}

/// Takes bytes of a line, to its LF at most.
fn take_line(
    alloc: Global,
    mut line: Vec<u8>,
    store: &mut Store,
    bytes: &[u8],
    replies: &mut Vec<u8>,
) -> Result<(Mode, usize), AllocError>
    requires short { length line.items < LONGEST_LINE + 2 }
    requires open { position lines.is_line_feed line.items ≡ None }
    requires some { 0 < length bytes.now }
    ensures some { IfOk result (λ r. 0 < r.1) }
    ensures within { IfOk result (λ r. r.1 ≤ length bytes.now) }
    ensures leads { IfOk result (λ r. steps.Leads (sessions.InLine line.items) store.old replies.old.items
        (take r.1 bytes.now) (steps.standing_in r.0) store.new replies.new.items) }
    ensures short { IfOk result (λ r. steps.IsShort r.0) }
    ensures err { OnErr result (store.new ≡ store.old) }
{
    let room = (LONGEST_LINE + 2 - line.len()).min(bytes.len());
    match place_of(&bytes[..room], b'\n') {
        None => {
            line.extend_from_slice(&bytes[..room])?;
            let later = wait_for_end(line, replies)?;
            Ok((later, room))
        }
        Some(end) => {
            let later = end_line(alloc, line, store, &bytes[..end], replies)?;
            Ok((later, end + 1))
        }
    }
}

/// Does the command of a line, of which the bytes before these came in pieces before. They are copied only then.
fn end_line(
    alloc: Global,
    mut line: Vec<u8>,
    store: &mut Store,
    bytes: &[u8],
    replies: &mut Vec<u8>,
) -> Result<Mode, AllocError>
    ensures made { IfOk result (λ mode. let before = line.items ++ bytes.now in
        steps.Made (steps.line_step store.old (before ++ 10 ∷ []) (steps.ended_line before))
        replies.old.items replies.new.items store.new mode) }
    ensures err { OnErr result (store.new ≡ store.old) }
{
    if line.is_empty() {
        return take_command(alloc, bytes, store, replies);
    }
    line.extend_from_slice(bytes)?;
    take_command(alloc, &line, store, replies)
}

/// Goes on with a line that has no end yet, or ends the session where it is too long.
fn wait_for_end(line: Vec<u8>, replies: &mut Vec<u8>) -> Result<Mode, AllocError>
    requires within { length line.items ≤ LONGEST_LINE + 2 }
    requires open { position lines.is_line_feed line.items ≡ None }
    ensures made { IfOk result (λ mode. (m : Map)
        → steps.Made (steps.line_step m line.items (steps.open_line line.items))
        replies.old.items replies.new.items m mode) }
{
    if line.len() < LONGEST_LINE + 2 {
        return Ok(Mode::Line(line));
    }
    say(replies, b"CLIENT_ERROR line too long\r\n")?;
    Ok(Mode::Over)
}

/// Does the command of a line, of which all that stands before its LF is given, or begins its block.
fn take_command(
    alloc: Global,
    before: &[u8],
    store: &mut Store,
    replies: &mut Vec<u8>,
) -> Result<Mode, AllocError>
    ensures made { IfOk result (λ mode.
        steps.Made (steps.line_step store.old (before.now ++ 10 ∷ []) (steps.ended_line before.now))
        replies.old.items replies.new.items store.new mode) }
    ensures err { OnErr result (store.new ≡ store.old) }
{
    let text = text_of(before);
    if text.len() > LONGEST_LINE {
        say(replies, b"CLIENT_ERROR line too long\r\n")?;
        return Ok(Mode::Over);
    }
    answer(alloc, request_in(text), store, replies)
}

/// Answers a command, or begins its block.
fn answer(
    alloc: Global,
    request: Request<'_>,
    store: &mut Store,
    replies: &mut Vec<u8>,
) -> Result<Mode, AllocError>
    ensures made { IfOk result (λ mode. steps.Made (steps.command_step store.old (steps.command_in request.entry))
        replies.old.items replies.new.items store.new mode) }
    ensures err { OnErr result (store.new ≡ store.old) }
{
    match request {
        Request::Set { key, flags, len } => begin_block(alloc, key, flags, len),
        Request::Get { keys } => {
            say_values(replies, keys, store)?;
            Ok(at_line(alloc))
        }
        Request::Delete { key } => {
            delete(replies, key, store)?;
            Ok(at_line(alloc))
        }
        Request::Quit => Ok(Mode::Over),
        Request::Unknown => {
            say(replies, b"ERROR\r\n")?;
            Ok(at_line(alloc))
        }
    }
}

/// What a session is at behind the line of a set. The block's memory is taken at once, so that its bytes are copied
/// once.
fn begin_block(alloc: Global, key: &[u8], flags: u32, len: u32) -> Result<Mode, AllocError>
    ensures stands { IfOk result (λ mode. steps.standing_in mode
        ≡ sessions.in_block (commands.Set key.now flags len) []) }
    ensures short { IfOk result steps.IsShort }
{
    if len > MOST_DATA {
        return Ok(Mode::Dropped(u64::from(len) + 2));
    }
    Ok(Mode::Block(Block {
        key: Vec::from_slice(alloc, key)?,
        flags,
        len,
        bytes: Vec::with_capacity(alloc, len as usize + 2)?,
    }))
}

/// Takes bytes of a set's block, to its end at most.
fn take_block(
    alloc: Global,
    mut block: Block,
    store: &mut Store,
    bytes: &[u8],
    replies: &mut Vec<u8>,
) -> Result<Mode, AllocError>
    requires small { block.len ≤ MOST_DATA }
    requires within { length block.bytes.items + length bytes.now ≤ block.len + 2 }
    ensures made { IfOk result (λ mode.
        steps.Made (steps.block_step store.old block.key.items block.flags block.len (block.bytes.items ++ bytes.now))
        replies.old.items replies.new.items store.new mode) }
    ensures err { OnErr result (store.new ≡ store.old) }
{
    block.bytes.extend_from_slice(bytes)?;
    if block.bytes.len() < block.len as usize + 2 {
        return Ok(Mode::Block(block));
    }
    end_block(alloc, block, store, replies)
}

/// Does a set whose block has come.
fn end_block(
    alloc: Global,
    block: Block,
    store: &mut Store,
    replies: &mut Vec<u8>,
) -> Result<Mode, AllocError>
    requires small { block.len ≤ MOST_DATA }
    requires whole { length block.bytes.items ≡ block.len + 2 }
    ensures made { IfOk result (λ mode. steps.Made
        (steps.done (outcomes.set_outcome store.old block.key.items block.flags block.len block.bytes.items))
        replies.old.items replies.new.items store.new mode) }
    ensures err { OnErr result (store.new ≡ store.old) }
{
    let Block {
        key,
        flags,
        len,
        mut bytes,
    } = block;
    if !is(&bytes[len as usize..], b"\r\n") {
        say(replies, b"CLIENT_ERROR bad data chunk\r\n")?;
        return Ok(Mode::Over);
    }
    if store.len() >= MOST_KEYS && store.get(&key).is_none() {
        say(replies, b"SERVER_ERROR out of memory storing object\r\n")?;
        return Ok(at_line(alloc));
    }
    say(replies, b"STORED\r\n")?;
    bytes.truncate(len as usize);
    store.put(key, Held { flags, bytes })?;
    Ok(at_line(alloc))
}

/// Goes on in the block of a set that is too large, of which so many bytes are missing.
fn take_dropped(alloc: Global, missing: u64, replies: &mut Vec<u8>) -> Result<Mode, AllocError>
    requires { missing < 2 ^ 33 }
    ensures made { IfOk result (λ mode. (m : Map) → steps.Made (steps.dropped_step m missing)
        replies.old.items replies.new.items m mode) }
{
    if missing > 0 {
        return Ok(Mode::Dropped(missing));
    }
    say(replies, b"SERVER_ERROR object too large for cache\r\n")?;
    Ok(at_line(alloc))
}

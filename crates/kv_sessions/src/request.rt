//! The command of a line.

ghost use Rattle.std.specs.Prelude.{◌≡◌};
ghost use Rattle.std.specs.List.{list_all};
ghost use Rattle.std.specs.Option.{option_map_or};
ghost use Rattle.kv_sessions.specs.Lines as lines;
ghost use Rattle.kv_sessions.specs.Commands as commands;
ghost use Rattle.kv_sessions.specs.Steps.{command_in};

use crate::words::{is, is_key, next_word, number_of};

/// A command as its line gives it.
#[derive(Clone, Copy)]
pub(crate) enum Request<'a> {
    Set { key: &'a [u8], flags: u32, len: u32 },
    /// With its keys as they stand in the line, which are all of the form of one.
    Get { keys: &'a [u8] },
    Delete { key: &'a [u8] },
    Quit,
    /// Any other line.
    Unknown,
}

/// The command of a line.
pub(crate) fn request_in(line: &[u8]) -> Request<'_>
    ensures { command_in result ≡ commands.command_of (lines.words_of line.now) }
{
    match known_in(line) {
        Some(request) => request,
        None => Request::Unknown,
    }
}

fn known_in(line: &[u8]) -> Option<Request<'_>>
    ensures { option_map_or command_in result commands.Unknown ≡ commands.command_of (lines.words_of line.now) }
{
    let (name, arguments) = next_word(line)?;
    if is(name, b"set") {
        return set_in(arguments);
    }
    if is(name, b"get") {
        return get_in(arguments);
    }
    if is(name, b"delete") {
        return delete_in(arguments);
    }
    if is(name, b"quit") {
        return quit_in(arguments);
    }
    None
}

fn set_in(arguments: &[u8]) -> Option<Request<'_>>
    ensures { option_map_or command_in result commands.Unknown ≡ commands.set_of (lines.words_of arguments.now) }
{
    let (key, rest) = next_word(arguments)?;
    let (flags, rest) = next_word(rest)?;
    let (time, rest) = next_word(rest)?;
    let (len, rest) = next_word(rest)?;
    if next_word(rest).is_some() || !is_key(key) {
        return None;
    }
    let flags = number_of(flags)?;
    number_of(time)?;
    let len = number_of(len)?;
    Some(Request::Set { key, flags, len })
}

fn get_in(arguments: &[u8]) -> Option<Request<'_>>
    ensures { option_map_or command_in result commands.Unknown ≡ commands.get_of (lines.words_of arguments.now) }
{
    next_word(arguments)?;
    if !are_keys(arguments) {
        return None;
    }
    Some(Request::Get { keys: arguments })
}

fn are_keys(words: &[u8]) -> bool
    ensures { result ≡ list_all lines.is_key (lines.words_of words.now) }
{
    let mut rest = words;
    while let Some((word, behind)) = next_word(rest) {
        if !is_key(word) {
            return false;
        }
        rest = behind;
    }
    true
}

fn delete_in(arguments: &[u8]) -> Option<Request<'_>>
    ensures { option_map_or command_in result commands.Unknown ≡ commands.delete_of (lines.words_of arguments.now) }
{
    let (key, rest) = next_word(arguments)?;
    if next_word(rest).is_some() || !is_key(key) {
        return None;
    }
    Some(Request::Delete { key })
}

fn quit_in(arguments: &[u8]) -> Option<Request<'_>>
    ensures { option_map_or command_in result commands.Unknown ≡ commands.quit_of (lines.words_of arguments.now) }
{
    match next_word(arguments) {
        Some(_) => None,
        None => Some(Request::Quit),
    }
}

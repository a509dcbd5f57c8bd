//! Replies, as they are put together.

ghost use Rattle.std.specs.Prelude.{◌≡◌, ◌++◌, length, codes, decimal, Some, OnOk, OnErr};
ghost use Rattle.kv_sessions.specs.Lines as lines;
ghost use Rattle.kv_sessions.specs.Outcomes as outcomes;
ghost use Rattle.kv_sessions.specs.Shown.{item_of};

use crate::store::{Held, Store};
use crate::words::next_word;
use itoa::Buffer;
use std::alloc::AllocError;

/// Puts a text behind the replies. The error is want of memory.
pub(crate) fn say(replies: &mut Vec<u8>, text: &[u8]) -> Result<(), AllocError>
    ensures { OnOk result (replies.new.items ≡ replies.old.items ++ text.now) }
{
    replies.extend_from_slice(text)?;
    Ok(())
}

fn say_number(replies: &mut Vec<u8>, number: usize) -> Result<(), AllocError>
    ensures { OnOk result (replies.new.items ≡ replies.old.items ++ decimal number) }
{
    let mut digits = Buffer::new();
    say(replies, digits.format(number).as_bytes())
}

/// Puts the line before what is held at a key behind the replies.
fn say_head(replies: &mut Vec<u8>, key: &[u8], held: &Held) -> Result<(), AllocError>
    ensures { OnOk result (replies.new.items ≡ replies.old.items ++ outcomes.head_text key.now (item_of held.now)) }
{
    say(replies, b"VALUE ")?;
    say(replies, key)?;
    say(replies, b" ")?;
    say_number(replies, held.flags as usize)?;
    say(replies, b" ")?;
    say_number(replies, held.bytes.len())?;
    say(replies, b"\r\n")?;
    Ok(())
}

/// Puts what is held at a key behind the replies.
fn say_value(replies: &mut Vec<u8>, key: &[u8], held: &Held) -> Result<(), AllocError>
    ensures { OnOk result (replies.new.items
        ≡ replies.old.items ++ outcomes.value_text key.now (Some (item_of held.now))) }
{
    say_head(replies, key, held)?;
    say(replies, &held.bytes)?;
    say(replies, b"\r\n")?;
    Ok(())
}

/// Answers a get: what is held at each of the keys.
pub(crate) fn say_values(
    replies: &mut Vec<u8>,
    keys: &[u8],
    store: &Store,
) -> Result<(), AllocError>
    ensures { OnOk result (replies.new.items
        ≡ replies.old.items ++ (outcomes.values_text store.now (lines.words_of keys.now) ++ codes "END\r\n")) }
{
    let mut rest = keys;
    while let Some((key, behind)) = next_word(rest) {
        if let Some(held) = store.get(key) {
            say_value(replies, key, held)?;
        }
        rest = behind;
    }
    say(replies, b"END\r\n")
}

/// Answers a delete, and forgets the key. After an error nothing is forgotten.
pub(crate) fn delete(replies: &mut Vec<u8>, key: &[u8], store: &mut Store) -> Result<(), AllocError>
    ensures replies { OnOk result (replies.new.items
        ≡ replies.old.items ++ (outcomes.delete_outcome store.old key.now).reply) }
    ensures store { OnOk result (store.new ≡ (outcomes.delete_outcome store.old key.now).map) }
    ensures err { OnErr result (store.new ≡ store.old) }
{
    if store.get(key).is_none() {
        return say(replies, b"NOT_FOUND\r\n");
    }
    say(replies, b"DELETED\r\n")?;
    store.remove(key);
    Ok(())
}

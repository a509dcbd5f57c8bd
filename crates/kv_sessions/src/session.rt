//! One client's session.

ghost use Rattle.std.specs.Prelude.{◌≡◌, ◌≤◌, [], length, flat_map, IsOk, IfOk, OnOk, OnErr};
ghost use Rattle.kv_sessions.specs.Answers.{answers};
ghost use Rattle.kv_sessions.specs.Stored.{Map};
ghost use Rattle.kv_sessions.specs.Sessions.{IsAfter, Answered, HasWhole, Over, is_over};

use crate::mode::Mode;
use crate::store::Store;
use crate::taking::take_piece;
use std::alloc::{AllocError, Global};
use std::marker::Model;
use std::mem::replace;

/// One client's session: what it is at, with the bytes of a command that is not whole yet.
#[derive(Drop)]
pub struct Session {
    alloc: Global,
    mode: Mode,
}

impl Model for Session {
    ghost use Rattle.kv_sessions.specs.Sessions.{Standing};

    ghost Value = { Standing };

    ghost use Rattle.kv_sessions.specs.Steps.{standing_in, IsShort};

    ghost view = { λ s. standing_in s.mode };

    ghost invariant = { λ s. IsShort s.mode };
}

impl Session {
    /// A session that was fed nothing. It takes no memory, and never fails.
    pub fn new(alloc: Global) -> Result<Session, AllocError>
        ensures made { IsOk result }
        ensures begins { IfOk result (λ session. (m : Map) → IsAfter m [] [] session m) }
    {
        Ok(Session {
            alloc,
            mode: Mode::Line(Vec::new(alloc)),
        })
    }

    /// Takes what came next from the client, and gives the replies to all commands that are whole with it.
    ///
    /// Let each call be given the store as the session's call before had left it. The replies joined, and the store,
    /// are then those of the bytes joined, in whatever pieces these came. A session that has ended answers nothing.
    ///
    /// The error is want of memory, and ends the session. The store then has the effects of whole commands alone.
    pub fn feed(&mut self, store: &mut Store, bytes: &[u8]) -> Result<Vec<u8>, AllocError>
        ensures answered { IfOk result (λ reply. Answered self.old store.old bytes.now reply.items self.new store.new) }
        ensures quiet { self.old ≡ Over → IfOk result (λ reply. reply.items ≡ []) }
        ensures unread { self.old ≡ Over → (self.new ≡ Over) × (store.new ≡ store.old) }
        ensures refused { OnErr result (self.new ≡ Over) }
        ensures whole { OnErr result (HasWhole self.old store.old bytes.now store.new) }
    {
        if self.ended() {
            return Ok(Vec::new(self.alloc));
        }
        let mode = replace(&mut self.mode, Mode::Over);
        let (mode, replies) = take_piece(self.alloc, mode, store, bytes)?;
        self.mode = mode;
        Ok(replies)
    }

    /// Whether the session has ended: what comes next is not read.
    pub fn ended(&self) -> bool
        ensures { result ≡ is_over self.now }
    {
        matches!(self.mode, Mode::Over)
    }
}

/// Answers a stream that comes in these pieces, by a session of its own. The error is want of memory.
pub fn answer_pieces(
    alloc: Global,
    store: &mut Store,
    pieces: &[&[u8]],
) -> Result<Vec<u8>, AllocError>
    ensures replies { IfOk result (λ said. said.items
        ≡ (answers store.old (flat_map (λ p. p.now) pieces.now)).replies) }
    ensures map { OnOk result (store.new ≡ (answers store.old (flat_map (λ p. p.now) pieces.now)).map) }
{
    let mut session = Session::new(alloc)?;
    let mut said = Vec::new(alloc);
    for piece in pieces {
        let reply = session.feed(store, piece)?;
        said.extend_from_slice(&reply)?;
    }
    Ok(said)
}

#[cfg(test)]
mod tests {
    use super::*;
    use std::test::Fail;

    const HELLO: &[u8] = b"set k 0 0 5\r\nhello\r\nget k\r\ndelete k\r\nget k\r\n";

    const SAID: &[u8] = b"STORED\r\nVALUE k 0 5\r\nhello\r\nEND\r\nDELETED\r\nEND\r\n";

    // What a stream is answered in two pieces.
    fn in_two(alloc: Global, stream: &[u8], at: usize) -> Result<Vec<u8>, AllocError>
        requires { at ≤ length stream.now }
    {
        let mut store = Store::new(alloc)?;
        let (front, back) = stream.split_at(at);
        answer_pieces(alloc, &mut store, &[front, back])
    }

    // What a stream is answered whole.
    fn said(alloc: Global, stream: &[u8]) -> Result<Vec<u8>, AllocError> {
        let mut store = Store::new(alloc)?;
        answer_pieces(alloc, &mut store, &[stream])
    }

    #[test]
    fn each_cut_of_a_stream_is_answered_alike(rt: HostRuntime) -> Result<(), Fail> {
        for at in 0..HELLO.len() {
            let replies = in_two(rt.alloc(), HELLO, at)?;
            assert_eq!(rt; replies.as_slice(), SAID);
        }
        Ok(())
    }

    #[test]
    fn lines_are_answered_by_their_form(rt: HostRuntime) -> Result<(), Fail> {
        let cases: [(&[u8], &[u8]); 10] = [
            (b"get\r\n", b"ERROR\r\n"),
            (b"\n", b"ERROR\r\n"),
            (b"GET k\n", b"ERROR\r\n"),
            (b"get k\r\r\n", b"ERROR\r\n"),
            (b"get k l\n", b"END\r\n"),
            (b"set k 0 0 01\r\n", b"ERROR\r\n"),
            (b"set k 0 0 1 noreply\r\n", b"ERROR\r\n"),
            (
                b" set  k 4294967295 7 0 \n\r\nget k k\n",
                b"STORED\r\nVALUE k 4294967295 0\r\n\r\nVALUE k 4294967295 0\r\n\r\nEND\r\n",
            ),
            (b"set k 4294967296 0 0\n", b"ERROR\r\n"),
            (b"delete k\nquit\nget k\n", b"NOT_FOUND\r\n"),
        ];
        for (stream, replies) in cases {
            let found = said(rt.alloc(), stream)?;
            assert_eq!(rt; found.as_slice(), replies);
        }
        Ok(())
    }

    #[test]
    fn a_bad_chunk_ends_the_session(rt: HostRuntime) -> Result<(), Fail> {
        let mut store = Store::new(rt.alloc())?;
        let mut session = Session::new(rt.alloc())?;
        let nothing = session.feed(&mut store, b"set k 0 0 1\r\nab")?;
        assert!(rt; nothing.is_empty());
        assert!(rt; !session.ended());
        let reply = session.feed(&mut store, b"c")?;
        assert_eq!(rt;
            reply.as_slice(),
            b"CLIENT_ERROR bad data chunk\r\n".as_slice()
        );
        assert!(rt; session.ended());
        Ok(())
    }

    // The replies to 1,025 sets of different keys, and then to a set of the first key.
    fn fill(alloc: Global) -> Result<Vec<u8>, AllocError> {
        let mut stream = Vec::new(alloc);
        for key in 0..1_025u32 {
            stream.extend_from_slice(format!(in alloc; "set {key} 0 0 0\r\n\r\n")?.as_bytes())?;
        }
        stream.extend_from_slice(b"set 0 0 0 0\r\n\r\n")?;
        said(alloc, &stream)
    }

    #[test]
    fn a_full_map_takes_no_new_key(rt: HostRuntime) -> Result<(), Fail> {
        let replies = fill(rt.alloc())?;
        let full = b"STORED\r\nSERVER_ERROR out of memory storing object\r\nSTORED\r\n".as_slice();
        assert!(rt; replies.ends_with(full));
        assert_eq!(rt; replies.len(), 1_025 * 8 + 43);
        Ok(())
    }

    #[test]
    fn data_past_the_limit_is_dropped(rt: HostRuntime) -> Result<(), Fail> {
        let mut stream = Vec::from_slice(rt.alloc(), b"set k 0 0 65537\r\n")?;
        stream.resize(17 + 65_539, 10)?;
        stream.extend_from_slice(b"get k\r\n")?;
        let replies = said(rt.alloc(), &stream)?;
        assert_eq!(rt;
            replies.as_slice(),
            b"SERVER_ERROR object too large for cache\r\nEND\r\n".as_slice()
        );
        Ok(())
    }
}

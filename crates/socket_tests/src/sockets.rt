//! Calls on a socket.
ghost use Rattle.socket_tests.specs.Going.{HasOpened};

use crate::flows::{greeted, guest, joined, start};
use flow_lock::FlowTable;
use flow_state::{Answer, FlowRecord};
use libtas_sockets::{App, Socket, SocketError};
use std::alloc::Global;
use std::test::*;

/// The application ends its stream.
pub fn shut(
    table: &FlowTable<FlowRecord>,
    app: &mut App,
    s: Socket,
    tick: u32,
) -> Result<(), SocketError>
    requires { HasOpened table.now s app.old }
    ensures { HasOpened table.now s app.new }
{
    app.shut(table, s, tick)
}

/// The answers to three calls that end the stream, the first before the peer has answered, and what the core answers
/// the peer.
fn shut_thrice(alloc: Global) -> Option<([Result<(), SocketError>; 3], Option<Answer>)> {
    let Ok((table, mut slow)) = start(alloc) else {
        return None;
    };
    let pass = guest(&table, &mut slow);
    let mut joined = joined(alloc, &table, &mut slow, pass)?;
    let early = shut(&table, &mut joined.app, joined.s, 1);
    let greeting = greeted(&table, &mut joined.core, &joined.pin);
    let first = shut(&table, &mut joined.app, joined.s, 3);
    let second = shut(&table, &mut joined.app, joined.s, 3);
    Some(([early, first, second], greeting))
}

#[test]
fn a_stream_is_shut_once(rt: HostRuntime) -> Result<(), Fail> {
    let Some(made) = shut_thrice(rt.alloc()) else {
        panic!(rt; "the core has no flow of the application")
    };
    let (answers, greeting) = made;
    assert_eq!(rt;
        answers,
        [Err(SocketError::NotOpen), Ok(()), Err(SocketError::Shut)]
    );
    assert!(rt; matches!(greeting, Some(Answer::Sent { .. })));
    Ok(())
}

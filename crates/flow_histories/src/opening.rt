//! Openings: ports, listeners and first numbers.

use segment_fields::{Flags, Segment};
use slow_handshake::{ListenRefused, SlowPath, SynAnswer};
use std::alloc::{AllocError, Global};
use std::test::*;
use tas_model::{FlowId, HostParams};
use tas_num::Seq;

const PARAMS: HostParams = HostParams {
    addr: 167772162,
    iss: 4294967295,
    ring: 16384,
    mss: 1460,
    rto: 20,
    slots: 1024,
    backlog: 1,
    fixed: false,
    scale: None,
};

fn segment(flags: u8) -> Segment<'static> {
    Segment {
        src: 167772161,
        dst: 167772162,
        sport: 40000,
        dport: 80,
        seq: Seq(4294967295),
        ack: Seq(7),
        flags: Flags(flags),
        window: 65535,
        mss: None,
        scale: None,
        payload: &[1, 2],
    }
}

/// Whether the ports come in their order, each once, and then no more.
fn gives_each_port_once(path: &mut SlowPath) -> bool {
    for i in 0..16384 {
        match path.next_port() {
            Ok(port) if port == 49152 + i => path.connected(),
            _ => return false,
        }
    }
    path.next_port().is_err() && path.next_port().is_err()
}

#[test]
fn each_port_is_given_once(rt: HostRuntime) -> Result<(), Fail> {
    let mut path = SlowPath::new(rt.alloc(), PARAMS)?;
    let numbers = [path.next_iss(), path.next_iss()];
    assert_eq!(rt; numbers, [Seq(4294967295), Seq(63999)]);
    assert!(rt; gives_each_port_once(&mut path));
    Ok(())
}

/// Whether application 5 gets the port, and application 6 does not.
fn listens_alone(path: &mut SlowPath) -> bool {
    path.listen(5, 80).is_ok() && matches!(path.listen(6, 80), Err(ListenRefused::PortInUse))
}

#[test]
fn a_port_listens_until_its_application_ends(rt: HostRuntime) -> Result<(), Fail> {
    let mut path = SlowPath::new(rt.alloc(), PARAMS)?;
    let before = path.syn(&segment(2));
    assert!(rt; listens_alone(&mut path));
    let after = path.syn(&segment(2));
    assert_eq!(rt; [before, after], [SynAnswer::NoListener, SynAnswer::Opens]);
    path.forget(5);
    assert!(rt; !path.listening(80));
    Ok(())
}

/// What a SYN meets, and which flow may be accepted: for any application, for 5 and for 6.
fn met(path: &mut SlowPath) -> (SynAnswer, [Option<FlowId>; 3]) {
    let answer = path.syn(&segment(2));
    (
        answer,
        [path.ready(80), path.waiting(5, 0), path.waiting(6, 0)],
    )
}

const ID: FlowId = FlowId {
    slot: 3,
    generation: 2,
};

/// What is met while a flow waits at a port with a backlog of one, once it is ready, and once it has left.
fn met_at_one(alloc: Global) -> Result<[(SynAnswer, [Option<FlowId>; 3]); 3], AllocError> {
    let mut path = SlowPath::new(alloc, PARAMS)?;
    let _listens = path.listen(5, 80);
    path.opened(ID, 80)?;
    let opened = met(&mut path);
    path.became_ready(ID);
    let ready = met(&mut path);
    path.left(ID);
    let left = met(&mut path);
    Ok([opened, ready, left])
}

#[test]
fn a_full_backlog_has_room_again(rt: HostRuntime) -> Result<(), Fail> {
    let met = met_at_one(rt.alloc())?;
    let expected = [
        (SynAnswer::BacklogFull(1), [None, Some(ID), None]),
        (SynAnswer::BacklogFull(1), [Some(ID), Some(ID), None]),
        (SynAnswer::Opens, [None, None, None]),
    ];
    assert_eq!(rt; met, expected);
    Ok(())
}

//! Whole lives of flows, from their opening to their end.

use fast_tx::FastTx;
use flow_state::{Answer, AppCalls, CallIn, FlowHistory, FlowRecord};
use segment_fields::{Flags, Segment};
use slow_handshake::SlowRx;
use slow_timeout::TimerWork;
use std::alloc::{AllocError, Global};
use std::test::*;
use tas_model::{Caller, FlowId, FourTuple, FrameId, Head, HostParams, Phase, Reason};
use tas_num::Seq;

const PARAMS: HostParams = HostParams {
    addr: 167772162,
    iss: 5000,
    ring: 16384,
    mss: 64,
    rto: 3,
    slots: 16,
    backlog: 16,
    fixed: false,
    scale: None,
};

const TUPLE: FourTuple = FourTuple {
    laddr: 167772162,
    lport: 80,
    raddr: 167772161,
    rport: 40000,
};

const ID: FlowId = FlowId {
    slot: 0,
    generation: 1,
};

const FRAME: FrameId = FrameId {
    host: 0,
    flow: 0,
    number: 0,
    copy: 0,
};

fn segment<'a>(flags: u8, seq: u32, ack: u32, payload: &'a [u8]) -> Segment<'a> {
    Segment {
        src: 167772161,
        dst: 167772162,
        sport: 40000,
        dport: 80,
        seq: Seq(seq),
        ack: Seq(ack),
        flags: Flags(flags),
        window: 16384,
        mss: None,
        scale: None,
        payload,
    }
}

/// The answer of a call. `None`: there is none, or memory is wanting.
fn answer_of(made: Result<Option<Answer>, AllocError>) -> Option<Answer> {
    match made {
        Ok(answer) => answer,
        Err(_) => None,
    }
}

/// A segment that comes.
fn rx(record: &mut FlowRecord, tick: u32, seg: Segment<'_>) -> Option<Answer> {
    answer_of(record.act(
        Caller::Core(0),
        tick,
        &CallIn::Rx { frame: FRAME, seg },
        &SlowRx,
    ))
}

/// The flow emits a segment, where one is due.
fn emitted(record: &mut FlowRecord, tick: u32) -> Option<Answer> {
    answer_of(record.act(Caller::Core(0), tick, &CallIn::Emit, &FastTx))
}

/// The application receives.
fn got(record: &mut FlowRecord, tick: u32) -> Option<Answer> {
    answer_of(record.act(Caller::App(0), tick, &CallIn::Recv { most: 192 }, &AppCalls))
}

/// How many bytes the application gets. `None`: there is another answer.
fn received(record: &mut FlowRecord, tick: u32) -> Option<u32> {
    match got(record, tick) {
        Some(Answer::Got { len, .. }) => Some(len),
        _ => None,
    }
}

/// The application ends its stream.
fn shut(record: &mut FlowRecord, tick: u32) -> Option<Answer> {
    answer_of(record.act(Caller::App(0), tick, &CallIn::Shut, &AppCalls))
}

/// The ACK of number 5001.
fn acks(ack: u32, window: u16) -> Option<Answer> {
    Some(Answer::Sent {
        head: Head {
            flags: 16,
            seq: Seq(5001),
            ack: Seq(ack),
            window,
            mss: None,
            scale: None,
        },
        len: 0,
    })
}

/// A flow that a SYN with the number 1000 opened, after its handshake at tick 2. Its own first number is 5000.
fn established(alloc: Global) -> Result<FlowRecord, AllocError> {
    let syn = segment(2, 1000, 0, &[]);
    let mut record = FlowRecord::passive(alloc, ID, TUPLE, &PARAMS, Seq(5000), FRAME, &syn, 1)?;
    let _syn_ack = emitted(&mut record, 1);
    let _nothing = rx(&mut record, 2, segment(16, 1001, 5001, &[]));
    Ok(record)
}

/// The answers to three segments of 64 bytes of which the middle one comes last, and how many bytes the application
/// then gets, before the middle one and after it.
fn late_middle(alloc: Global) -> Result<([Option<Answer>; 3], [Option<u32>; 2]), AllocError> {
    let mut record = established(alloc)?;
    let bytes = [7; 64];
    let first = rx(&mut record, 4, segment(16, 1001, 5001, &bytes));
    let third = rx(&mut record, 4, segment(24, 1129, 5001, &bytes));
    let before = received(&mut record, 4);
    let second = rx(&mut record, 9, segment(16, 1065, 5001, &bytes));
    let after = received(&mut record, 9);
    Ok(([first, third, second], [before, after]))
}

#[test]
fn a_late_middle_waits_for_the_bytes_before_it(rt: HostRuntime) -> Result<(), Fail> {
    let (answers, lengths) = late_middle(rt.alloc())?;
    assert_eq!(rt;
        answers,
        [acks(1065, 16320), acks(1065, 16320), acks(1193, 16256)]
    );
    assert_eq!(rt; lengths, [Some(64), Some(128)]);
    Ok(())
}

/// The answers to a reset one past the next number and to a Recv then, and to a reset of the next number and a Recv.
fn two_resets(alloc: Global) -> Result<[Option<Answer>; 4], AllocError> {
    let mut record = established(alloc)?;
    let challenged = rx(&mut record, 3, segment(4, 1002, 0, &[]));
    let waits = got(&mut record, 3);
    let reset = rx(&mut record, 4, segment(4, 1001, 0, &[]));
    let closed = got(&mut record, 4);
    Ok([challenged, waits, reset, closed])
}

#[test]
fn only_the_next_number_resets(rt: HostRuntime) -> Result<(), Fail> {
    let closed = Answer::Closed {
        reason: Reason::Reset,
    };
    let answers = [
        acks(1001, 16384),
        Some(Answer::NotYet),
        Some(Answer::Nothing),
        Some(closed),
    ];
    assert_eq!(rt; two_resets(rt.alloc())?, answers);
    Ok(())
}

/// A flow that has sent its FIN at tick 5.
fn finished(alloc: Global) -> Result<FlowRecord, AllocError> {
    let mut record = established(alloc)?;
    let _shut = shut(&mut record, 5);
    let _fin = emitted(&mut record, 5);
    Ok(record)
}

/// The answer to the peer's FIN and to its ACK of the flow's own, each with the phase after it.
fn crossing_fins(alloc: Global) -> Result<[(Option<Answer>, Phase); 2], AllocError> {
    let mut record = finished(alloc)?;
    let answer = rx(&mut record, 6, segment(17, 1001, 5001, &[]));
    let closing = (answer, record.parts().phase);
    let nothing = rx(&mut record, 7, segment(16, 1002, 5002, &[]));
    Ok([closing, (nothing, record.parts().phase)])
}

#[test]
fn both_sides_close_at_once(rt: HostRuntime) -> Result<(), Fail> {
    let [(answer, closing), (nothing, waiting)] = crossing_fins(rt.alloc())?;
    assert!(rt;
        matches!(answer, Some(Answer::Sent { head, len: 0 }) if head.ack == Seq(1002) && head.flags == 16)
    );
    assert_eq!(rt; nothing, Some(Answer::Nothing));
    assert!(rt; matches!((closing, waiting), (Phase::Closing, Phase::TimeWait)));
    Ok(())
}

/// What is left of a flow that read 64 bytes and was then reset.
fn reset_after_a_read(alloc: Global) -> Result<FlowHistory, AllocError> {
    let mut record = established(alloc)?;
    let bytes = [7; 64];
    let _ack = rx(&mut record, 4, segment(16, 1001, 5001, &bytes));
    let _read = received(&mut record, 4);
    let _nothing = rx(&mut record, 5, segment(4, 1065, 0, &[]));
    Ok(record.into_history())
}

#[test]
fn a_history_alone_tells_where_it_led(rt: HostRuntime) -> Result<(), Fail> {
    let history = reset_after_a_read(rt.alloc())?;
    assert!(rt; matches!(history.phase(), Phase::Closed));
    assert!(rt; matches!(history.reason(), Some(Reason::Reset)));
    assert_eq!(rt; history.read_count(), 64);
    assert_eq!(rt; history.entries(), 6);
    Ok(())
}

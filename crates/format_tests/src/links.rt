//! What the lines of a link do to a frame.

use link_script::*;
use std::test::*;
use tas_model::{Bytes, FrameId, NO_FLOW};

/// A frame of the packet `hi`, sent to host 9.
fn frame(rt: HostRuntime, tick: u32, host: u32, flow: u32, number: u64) -> Result<Sent, Fail> {
    let id = FrameId {
        host,
        flow,
        number,
        copy: 0,
    };
    Ok(Sent {
        id,
        tick,
        to: 9,
        packet: Bytes::copy(rt.alloc(), b"hi")?,
    })
}

#[test]
fn lines_drop_double_delay_and_invert(rt: HostRuntime) -> Result<(), Fail> {
    let mut script = LinkScript::new(rt.alloc())?;
    script.add(0, 0, 0, LinkAct::Dup)?;
    script.add(0, 0, 1, LinkAct::Delay(3))?;
    script.add(0, 0, 2, LinkAct::Corrupt(1))?;
    script.drop_each(1, 2)?;
    let mut sent = SentList::new(rt.alloc());
    sent.push(frame(rt, 7, 0, 0, 2)?)?;
    for (host, flow, number) in [(0, 0, 1), (1, 0, 1), (1, 0, 2), (1, NO_FLOW, 1), (0, 0, 0)] {
        sent.push(frame(rt, 4, host, flow, number)?)?;
    }
    let mut found = Vec::new(rt.alloc());
    for tick in 0..12 {
        let frames = due(rt.alloc(), &script, &sent, tick)?;
        for i in 0..frames.len() {
            let frame = frames.get(i);
            found.push((
                tick,
                frame.id.host,
                frame.id.flow,
                frame.id.number,
                frame.id.copy,
            ))?;
            if tick == 8 && i == 1 {
                assert!(rt; frame.packet.as_slice() == [b'h', 255 - b'i'].as_slice());
            }
        }
    }
    // Frame 1 of host 1 is lost, as is every second one; that of no flow is not.
    let expected = [
        (5, 0, 0, 0, 0),
        (5, 0, 0, 0, 1),
        (5, 1, 0, 2, 0),
        (5, 1, NO_FLOW, 1, 0),
        (8, 0, 0, 1, 0),
        (8, 0, 0, 2, 0),
    ];
    assert!(rt; found.as_slice() == expected.as_slice());
    Ok(())
}

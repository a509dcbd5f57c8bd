//! What comes to a host in a tick.

ghost use Rattle.std.specs.Prelude.{◌≡◌, ◌++◌, [], map, IfOk, OnOk};
ghost use Rattle.std.specs.List.{cons_option};
ghost use Rattle.std.specs.Option.{option_map};
ghost use Rattle.tas_runs.specs.LocalScript.{record_frame, arrival_of as model_arrival, arrivals_in};
ghost use Rattle.capture_items.specs.Items.{item_in};
ghost use Rattle.local_host.specs.Arriving.{arrival_in};

use capture_items::{Content, Item};
use segment_fields::Segment;
use std::alloc::{AllocError, Global};
use tas_model::{CAPTURE, FourTuple, FrameId, NO_FLOW};

/// What comes in a frame.
#[derive(Clone, Copy, Debug)]
pub enum Packet<'a> {
    /// A packet that breaks the rule of reading with this number.
    Damaged(u8),
    /// A segment, with its four-tuple as the host sees it.
    Segment(FourTuple, Segment<'a>),
}

/// A frame that comes to the host.
#[derive(Clone, Copy, Debug)]
pub struct Arrival<'a> {
    pub frame: FrameId,
    pub packet: Packet<'a>,
}

/// Who takes the segments that come to a host.
#[derive(Clone, Copy, Debug)]
pub enum Taking {
    /// In serial order: the fast path of core 0 takes what is for it, and the slow path all else.
    Serially,
    /// The slow path takes all.
    Slowly,
}

/// The frame that a record of a capture is. None of a segment that the host sent itself.
pub fn arrival_of<'a>(item: &Item<'a>) -> Option<Arrival<'a>>
    ensures { option_map arrival_in result ≡ model_arrival (item_in item.now) }
{
    let packet = match item.content {
        Content::Damaged(rule) => Packet::Damaged(rule.number()),
        Content::Remote(tuple, seg) => Packet::Segment(tuple, seg),
        Content::Local(..) => return None,
    };
    Some(Arrival {
        frame: frame_of(item.number),
        packet,
    })
}

/// The frames among these records, in their order. The error is want of memory.
pub fn arrivals_of<'a>(alloc: Global, batch: &[Item<'a>]) -> Result<Vec<Arrival<'a>>, AllocError>
    ensures { IfOk result (λ arrivals. map arrival_in arrivals.items ≡ arrivals_in (map item_in batch.now)) }
{
    let mut arrivals = Vec::with_capacity(alloc, batch.len())?;
    for item in batch {
        push_where(&mut arrivals, arrival_of(item))?;
    }
    Ok(arrivals)
}

/// One frame more, where there is one. The error is want of memory.
fn push_where<'a>(
    arrivals: &mut Vec<Arrival<'a>>,
    arrival: Option<Arrival<'a>>,
) -> Result<(), AllocError>
    ensures { OnOk result (arrivals.new.items ≡ arrivals.old.items ++ cons_option arrival.entry []) }
{
    if let Some(arrival) = arrival {
        arrivals.push(arrival)?;
    }
    Ok(())
}

/// The frame of the record with this number.
fn frame_of(number: u32) -> FrameId
    ensures { result ≡ record_frame number }
{
    FrameId {
        host: CAPTURE,
        flow: NO_FLOW,
        number: u64::from(number),
        copy: 0,
    }
}

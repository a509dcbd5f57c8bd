//! Frames that are due reach their hosts.

ghost use Rattle.std.specs.Prelude.{◌≡◌, ◌==◌, ◌++◌, ◌∷◌, [], map, filter, IfOk, OnOk};
ghost use Rattle.link_script.specs.declared.frames.Sent.{Sent};
ghost use Rattle.local_host.specs.Arriving.{arrival_in};
ghost use Rattle.capture_items.specs.Items.{receives};
ghost use Rattle.scenario_runs.specs.Worlds.{arrival as model_arrival};

use link_script::{DueList, Sent};
use local_host::{Arrival, Packet};
use segment_fields::{Segment, read};
use std::alloc::{AllocError, Global};
use tas_model::FourTuple;

/// The frames that come to a host, of those that are due. The error is want of memory.
pub fn arrivals_at<'a>(
    alloc: Global,
    due: &'a DueList<'a>,
    host: usize,
) -> Result<Vec<Arrival<'a>>, AllocError>
    ensures { IfOk result (λ arrivals. map arrival_in arrivals.items
        ≡ map model_arrival (filter (λ (f : Sent). f.to == host) due.now)) }
{
    let mut arrivals = Vec::new(alloc);
    for i in 0..due.len() {
        take_arrival(&mut arrivals, due.get(i), host)?;
    }
    Ok(arrivals)
}

/// Appends the frame, where it comes to the host. The error is want of memory.
fn take_arrival<'a>(
    arrivals: &mut Vec<Arrival<'a>>,
    frame: &'a Sent,
    host: usize,
) -> Result<(), AllocError>
    ensures { OnOk result (map arrival_in arrivals.new.items ≡ map arrival_in arrivals.old.items
        ++ map model_arrival (filter (λ (f : Sent). f.to == host) (frame.now ∷ []))) }
{
    if frame.to as usize == host {
        arrivals.push(arrival(frame))?;
    }
    Ok(())
}

/// A frame as the host reads it that it comes to: with its checksums.
#[tactic(auto, using(capture_items::proofs::Read::segment_read, capture_items::proofs::Read::receiver_read))]
fn arrival(frame: &Sent) -> Arrival<'_>
    ensures { arrival_in result ≡ model_arrival frame.now }
{
    let packet = match read(frame.packet.as_slice(), true) {
        Err(rule) => Packet::Damaged(rule.number()),
        Ok(segment) => Packet::Segment(receiver_tuple(&segment), segment),
    };
    Arrival {
        frame: frame.id,
        packet,
    }
}

/// The four-tuple of a segment as the host sees it that it goes to.
fn receiver_tuple(segment: &Segment<'_>) -> FourTuple
    ensures { result ≡ receives segment.now }
{
    FourTuple {
        laddr: segment.dst,
        lport: segment.dport,
        raddr: segment.src,
        rport: segment.sport,
    }
}

//! Whether the frames of a tick are all different.

ghost use Rattle.std.specs.Prelude.{◌≡◌, true, not, cond, map, IfOk, OnOk};
ghost use Rattle.std.specs.HashSet.{contains};
ghost use Rattle.local_host.specs.declared.distinct.FrameKey as keys;
ghost use Rattle.local_host.specs.Arriving.{arrival_in};
ghost use Rattle.local_host.specs.Handing.{AreDistinct};
ghost use Rattle.local_host.specs.Keys.{key_in, same_key};

use crate::arrival::Arrival;
use std::alloc::{AllocError, Global};
use std::collections::HashSet;
use tas_model::FrameId;

/// A frame's id, as a key.
#[derive(Clone, Copy, PartialEq, Eq, Hash, Debug)]
struct FrameKey {
    host: u32,
    flow: u32,
    number: u64,
    copy: u32,
}

/// Whether each frame comes once. The error is want of memory.
pub fn are_distinct(alloc: Global, arrivals: &[Arrival<'_>]) -> Result<bool, AllocError>
    ensures { IfOk result (λ distinct. distinct ≡ true → AreDistinct (map arrival_in arrivals.now)) }
{
    let mut seen = HashSet::new(alloc);
    for arrival in arrivals {
        if !see(&mut seen, arrival.frame)? {
            return Ok(false);
        }
    }
    Ok(true)
}

/// The frame was seen. The answer says whether it is the first time; the error is want of memory.
fn see(seen: &mut HashSet<FrameKey>, frame: FrameId) -> Result<bool, AllocError>
    ensures first { IfOk result (λ first. first ≡ not (contains same_key seen.old (key_in frame))) }
    ensures kept { OnOk result ((q : keys.FrameKey) → contains same_key seen.new q
        ≡ cond (same_key (key_in frame) q) true (contains same_key seen.old q)) }
{
    let first = seen.insert(FrameKey {
        host: frame.host,
        flow: frame.flow,
        number: frame.number,
        copy: frame.copy,
    })?;
    Ok(first)
}

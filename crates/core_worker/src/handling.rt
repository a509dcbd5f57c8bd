// One frame: its packet is read, its flow found, and the segment received there.
ghost use Rattle.std.specs.Prelude.{◌≡◌, ◌<◌, ◌++◌, ◌∷◌, [], IfOk, IfSome, OnErr};
ghost use Rattle.flow_lock.specs.Callers.{IsGuest};
ghost use Rattle.flow_index.specs.Changes.{Begins, found_after};
ghost use Rattle.segment_fields.specs.Refusals.{number_of};
ghost use Rattle.core_worker.specs.declared.frames.Handled.TheVariants as answers;
ghost use Rattle.core_worker.specs.Frames.{named_in};
ghost use Rattle.core_worker.specs.Workers.{sight};
ghost use Rattle.core_worker.specs.Telling.{AreOwnSenders};
ghost use Rattle.core_worker.specs.Handling.{setting_on, refused_line, IsHandled, IsUnhandled};

use crate::entering::tuple_of;
use crate::frames::{Handled, Passed};
use crate::receiving::receive;
use crate::senders::AppSenders;
use crate::shared::Shared;
use flow_index::{Found, IndexReader};
use flow_lock::Pass;
use flow_state::FlowRecord;
use segment_fields::{Refused, read};
use std::alloc::AllocError;
use std::sync::Wait;
use tas_core::{HostLog, LogEvent, LogLine};
use tas_model::{FlowId, FourTuple, FrameId};

/// Who handles frames, and when.
#[derive(Clone, Copy)]
pub(crate) struct Duty {
    pub core: u32,
    pub check_sums: bool,
    pub tick: u32,
}

/// Handles a frame with the worker's pass, its reader of the index, its log and its senders. The error is want of
/// memory.
pub(crate) fn handle<R: Wait>(
    rt: &R,
    shared: &Shared,
    duty: Duty,
    pass: &mut Pass<FlowRecord>,
    reader: &mut IndexReader,
    log: &mut HostLog,
    senders: &mut AppSenders,
    frame: FrameId,
    packet: &[u8],
) -> Result<Handled, AllocError>
    requires free { IsGuest shared.now.table pass.old }
    requires senders { AreOwnSenders shared.now.queues senders.old }
    ensures free { IsGuest shared.now.table pass.new }
    ensures senders { AreOwnSenders shared.now.queues senders.new }
    ensures handled { IfOk result (IsHandled (setting_on shared.now duty) frame packet.now
        (sight pass.old reader.old log.old senders.old) (sight pass.new reader.new log.new senders.new)) }
    ensures full { OnErr result (IsUnhandled (setting_on shared.now duty) packet.now
        (sight pass.old reader.old log.old senders.old) (sight pass.new reader.new log.new senders.new)) }
{
    let seg = match read(packet, duty.check_sums) {
        Ok(seg) => seg,
        Err(refused) => return refuse(log, duty.tick, frame, refused),
    };
    let Some(flow) = named_flow(rt, shared, reader, tuple_of(&seg)) else {
        return Ok(Handled::Passed(Passed::Absent));
    };
    receive(rt, shared, pass, senders, flow, duty, frame, &seg)
}

/// Writes the line of a packet that breaks a rule of reading.
fn refuse(
    log: &mut HostLog,
    tick: u32,
    frame: FrameId,
    refused: Refused,
) -> Result<Handled, AllocError>
    ensures answer { IfOk result (λ h. h ≡ answers.Refused (number_of refused)) }
    ensures line { IfOk result (λ _. log.new ≡ log.old ++ refused_line tick frame refused ∷ []) }
    ensures full { OnErr result (log.new ≡ log.old) }
{
    let number = refused.number();
    log.add(LogLine {
        tick,
        event: LogEvent::Refused { frame, number },
    })?;
    Ok(Handled::Refused(number))
}

/// The flow that the index names for a four-tuple, where its slot is one of the table's.
fn named_flow<R: Wait>(
    rt: &R,
    shared: &Shared,
    reader: &mut IndexReader,
    tuple: FourTuple,
) -> Option<FlowId>
    ensures later { Begins reader.old reader.new }
    ensures named { result ≡ named_in shared.now.table.slots (found_after tuple reader.new) }
    ensures slot { IfSome result (λ id. id.slot < shared.now.table.slots) }
{
    let Found::Flow(id) = reader.find(rt, tuple) else {
        return None;
    };
    if id.slot < shared.table.slots() {
        Some(id)
    } else {
        None
    }
}

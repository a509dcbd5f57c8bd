//! A look at a flow's history, by a core's pass.
ghost use Rattle.std.specs.Prelude.{◌≡◌, ◌<◌};
ghost use Rattle.flow_lock.specs.Callers.{IsGuest, IsUser};
ghost use Rattle.host_tests.specs.Hosts.{IsCore};

use crate::packets::byte_at;
use core_worker::{CoreWorker, Shared};
use flow_lock::{FlowTable, Pass, Pin};
use flow_state::{CallView, EntryView, FlowRecord, ReplyView};
use steering::group;
use tas_model::{Caller, FlowId};

/// What applications write, again and again.
pub const WORDS: &[u8; 4] = b"word";

/// Who made an entry of a history, by which call.
#[derive(Clone, Copy)]
pub enum Act {
    Opened(Caller),
    Received(Caller),
    Emitted(Caller),
    Accepted(Caller),
    Wrote(Caller),
    Read(Caller),
    Other,
}

fn act_of(entry: EntryView<'_>) -> Act {
    match entry.call {
        CallView::Passive { .. } => Act::Opened(entry.caller),
        CallView::Rx { .. } => Act::Received(entry.caller),
        CallView::Emit => Act::Emitted(entry.caller),
        CallView::Accept => Act::Accepted(entry.caller),
        CallView::Send { .. } => Act::Wrote(entry.caller),
        CallView::Recv { .. } => Act::Read(entry.caller),
        _ => Act::Other,
    }
}

/// The one core and the one application of a flow, and its peer's port.
#[derive(Clone, Copy)]
struct Ends {
    core: u32,
    app: u32,
    port: u16,
}

/// The groups of flows are on the cores as at first, and application 0 has port 80, application 1 has 81.
fn ends_of(flow: &FlowRecord) -> Ends {
    let tuple = flow.tuple();
    Ends {
        core: group(&tuple) % 2,
        app: u32::from(tuple.lport).saturating_sub(80),
        port: tuple.rport,
    }
}

/// Whether the caller is one of those that may make the call on the flow.
fn is_expected(act: Act, ends: Ends) -> bool {
    match act {
        Act::Opened(caller) => caller == Caller::Slow,
        Act::Received(caller) => caller == Caller::Slow || caller == Caller::Core(ends.core),
        Act::Emitted(caller) => caller == Caller::Core(ends.core),
        Act::Accepted(caller) | Act::Wrote(caller) | Act::Read(caller) => caller
            == Caller::App(ends.app),
        Act::Other => false,
    }
}

/// A flow's history in short.
#[derive(Clone, Copy, Drop)]
pub struct Summary {
    pub last: Act,
    /// How many entries there are.
    pub entries: usize,
    /// The last entry's tick.
    tick: u32,
    /// No tick is below the one before, each entry is of a caller that may make it, what was read is the peer's stream,
    /// and what was written and sent for the first time is the words of applications.
    pub is_in_order: bool,
    /// How many segments were received.
    pub received: u64,
    /// How many bytes were read by the application, written by it, and sent.
    pub read: u64,
    pub written: u64,
    pub sent: u64,
}

const NOTHING: Summary = Summary {
    last: Act::Other,
    entries: 0,
    tick: 0,
    is_in_order: true,
    received: 0,
    read: 0,
    written: 0,
    sent: 0,
};

/// Whether the bytes stand at this place of the peer's stream.
fn is_heard(bytes: &[u8], port: u16, place: u64) -> bool {
    for i in 0..bytes.len() {
        if bytes[i] != byte_at(port, place.wrapping_add(i as u64)) {
            return false;
        }
    }
    true
}

/// Whether the bytes stand at this place of the words of applications.
fn is_said(bytes: &[u8], place: u64) -> bool {
    for i in 0..bytes.len() {
        if bytes[i] != WORDS[(place.wrapping_add(i as u64) % 4) as usize] {
            return false;
        }
    }
    true
}

impl Summary {
    /// With an entry more.
    fn with(self, entry: EntryView<'_>, ends: Ends) -> Summary {
        let act = act_of(entry);
        let is_next = entry.tick >= self.tick && is_expected(act, ends);
        let count = match act {
            Act::Received(_) => 1,
            _ => 0,
        };
        let next = Summary {
            last: act,
            entries: self.entries.saturating_add(1),
            tick: entry.tick,
            is_in_order: self.is_in_order && is_next,
            received: self.received.saturating_add(count),
            ..self
        };
        next.with_bytes(entry, ends.port)
    }

    /// With the bytes of an entry's reply.
    fn with_bytes(self, entry: EntryView<'_>, port: u16) -> Summary {
        match entry.reply {
            ReplyView::Got { bytes, .. } => Summary {
                is_in_order: self.is_in_order && is_heard(bytes, port, self.read),
                read: self.read.saturating_add(bytes.len() as u64),
                ..self
            },
            ReplyView::Took { bytes } => Summary {
                is_in_order: self.is_in_order && is_said(bytes, self.written),
                written: self.written.saturating_add(bytes.len() as u64),
                ..self
            },
            ReplyView::Sent { seg } => Summary {
                is_in_order: self.is_in_order && is_said(seg.bytes, self.sent),
                sent: self.sent.saturating_add(seg.bytes.len() as u64),
                ..self
            },
            _ => self,
        }
    }
}

fn summary_of(flow: &FlowRecord) -> Summary {
    let ends = ends_of(flow);
    let mut summary = NOTHING;
    for i in 0..flow.entries() {
        summary = summary.with(flow.entry(i), ends);
    }
    summary
}

/// Takes the record, looks at it and gives it back. `None` where another pass has it.
fn taken<T: Drop, L: FnOnce(&FlowRecord) -> T>(
    table: &FlowTable<FlowRecord>,
    pass: &mut Pass<FlowRecord>,
    pin: &Pin,
    look: L,
) -> Option<T>
    requires pass { IsUser table.now pin.now pass.old × (pin.now.slot < table.now.slots) }
    requires look { L.IsAlwaysCallable look }
    ensures { IsUser table.now pin.now pass.new }
{
    let Ok(flow) = table.take(pass, pin) else {
        return None;
    };
    let seen = look(&flow);
    table.give(pass, pin, flow);
    Some(seen)
}

/// Pins the flow and looks at it. `None` where it isn't open, or another pass has its record.
fn pinned<T: Drop, L: FnOnce(&FlowRecord) -> T>(
    table: &FlowTable<FlowRecord>,
    pass: &mut Pass<FlowRecord>,
    id: FlowId,
    look: L,
) -> Option<T>
    requires pass { IsGuest table.now pass.old × (id.slot < table.now.slots) }
    requires look { L.IsAlwaysCallable look }
    ensures { IsGuest table.now pass.new }
{
    let Ok(pin) = table.pin(pass, id) else {
        return None;
    };
    let seen = taken(table, pass, &pin, look);
    table.unpin(pass, pin);
    seen
}

/// Looks at the flow while the pass of a core holds its record.
pub fn hold_by<T: Drop, L: FnOnce(&FlowRecord) -> T>(
    shared: &Shared,
    core: &mut CoreWorker,
    id: FlowId,
    look: L,
) -> Option<T>
    requires core { IsCore shared.now core.old }
    requires look { L.IsAlwaysCallable look }
    ensures { IsCore shared.now core.new }
{
    if id.slot >= shared.table.slots() {
        return None;
    }
    pinned(&shared.table, &mut core.pass, id, look)
}

/// What the history of the flow is, by the pass of a core.
pub fn look_by(shared: &Shared, core: &mut CoreWorker, id: FlowId) -> Option<Summary>
    requires { IsCore shared.now core.old }
    ensures { IsCore shared.now core.new }
{
    hold_by(shared, core, id, summary_of)
}

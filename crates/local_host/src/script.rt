//! The one application of a replay's host, which asks what the capture shows of it.

ghost use Rattle.std.specs.Prelude.{◌≡◌, ℕ, ◌+◌, ◌^◌, ◌<◌, ◌≤◌, ◌++◌, ◌==◌, ◌||◌, ◌&&◌, not, true, false, [], length};
ghost use Rattle.std.specs.Prelude.{drop, OnOk};
ghost use Rattle.flow_state.specs.Calls.{seg_of};
ghost use Rattle.host_rounds.specs.Hosts.{Live, endpoint, is_held, is_opening, is_running as model_running};
ghost use Rattle.tas_runs.specs.Records.{Content, is_remote};
ghost use Rattle.tas_runs.specs.LocalScript.{Accepting, Sending, Shutting, Aborting, Receiving, Leaving, is_served};
ghost use Rattle.tas_runs.specs.LocalScript.{resets_here, sees, fresh_bytes as model_fresh, at_stage, shown_after};
ghost use Rattle.tas_runs.specs.LocalScript.{nothing_shown};
ghost use Rattle.tas_runs.specs.LocalScript.{Shown as ModelShown};
ghost use Rattle.local_host.specs.Script.{asked_all, asked_live};

use crate::live::{Holder, LiveFlow};
use crate::pending::Pending;
use crate::reading::raised;
use flow_state::{CallIn, Stage};
use segment_fields::Segment;
use std::alloc::{AllocError, Global};
use std::marker::Model;
use tas_model::Caller;
use tas_num::Seq;

/// The one application of a replay's host.
pub const THE_APP: u32 = 0;

/// How many bytes wait at most: as many as a Send may offer.
const MOST_PENDING: usize = 0xffff_ffff;

/// What a capture showed of a flow's local stream so far.
#[derive(Drop)]
pub struct Shown {
    /// The bytes that no Send took yet.
    pending: Pending,
    /// It showed a local FIN.
    ends: bool,
    /// And the stream was ended for it.
    shut: bool,
}

impl Model for Shown {
    ghost use Rattle.std.specs.Prelude.{◌<◌, ◌^◌, length};
    ghost use Rattle.tas_runs.specs.LocalScript.{Shown};

    ghost Value = { Shown };

    ghost view = { λ s. record { pending = s.pending; ends = s.ends; shut = s.shut } };

    ghost invariant = { λ s. length s.pending < 2 ^ 32 };
}

impl Shown {
    /// Nothing was shown. It takes no memory.
    pub fn new(alloc: Global) -> Shown
        ensures { result ≡ nothing_shown }
    {
        Shown {
            pending: Pending::new(alloc),
            ends: false,
            shut: false,
        }
    }

    /// A local segment of the flow shows bytes of its stream, or its end. Bytes past those that may wait are not seen
    /// yet. The error is want of memory.
    pub fn see(&mut self, flow: &LiveFlow, seg: &Segment<'_>) -> Result<(), AllocError>
        ensures { OnOk result (self.new ≡ sees (seg_of seg.now) flow.now self.old) }
    {
        let fresh = fresh_bytes(flow.iss(), seg, flow.sent_count(), self.pending.len());
        let fits = fresh.len().min(MOST_PENDING - self.pending.len());
        self.pending.append(&fresh[..fits])?;
        self.ends = self.ends || seg.flags.is_fin();
        Ok(())
    }

    /// The application offers all bytes that wait, where it has the connection. The error is want of memory.
    fn send(&mut self, flow: &mut LiveFlow, tick: u32) -> Result<(), AllocError>
        ensures flow { (content : Content) → OnOk result (flow.new ≡ at_stage Sending tick content self.old flow.old) }
        ensures shown { (content : Content) → OnOk result
            (self.new ≡ shown_after Sending tick content flow.old self.old) }
    {
        if is_served(flow) && self.pending.len() > 0 {
            let taken = flow.offer(THE_APP, tick, self.pending.as_slice())?;
            self.pending.drop_front(taken);
        }
        Ok(())
    }

    /// The local stream ends, where all of it was shown and no byte waits. The error is want of memory.
    fn shut(&mut self, flow: &mut LiveFlow, tick: u32) -> Result<(), AllocError>
        ensures flow { (content : Content) → OnOk result (flow.new ≡ at_stage Shutting tick content self.old flow.old) }
        ensures shown { (content : Content) → OnOk result
            (self.new ≡ shown_after Shutting tick content flow.old self.old) }
    {
        if is_served(flow) && self.ends && self.pending.len() == 0 && !self.shut {
            flow.ask(Caller::App(THE_APP), tick, &CallIn::Shut)?;
            self.shut = true;
        }
        Ok(())
    }

    /// The calls that the application makes for a segment of the flow, in their order. `remote` says that the segment
    /// is a remote one, `resets` that it is a local one with RST. The error is want of memory.
    pub fn serve(
        &mut self,
        flow: &mut LiveFlow,
        tick: u32,
        remote: bool,
        resets: bool,
    ) -> Result<(), AllocError>
        ensures flow { (content : Content) → is_remote content ≡ remote → resets_here content ≡ resets
            → OnOk result (flow.new ≡ asked_live tick content self.old flow.old) }
        ensures shown { (content : Content) → is_remote content ≡ remote → resets_here content ≡ resets
            → OnOk result (self.new ≡ (asked_all tick content (record { live = flow.old; shown = self.old })).shown) }
    {
        accept(flow, tick)?;
        self.send(flow, tick)?;
        self.shut(flow, tick)?;
        abort(flow, tick, resets)?;
        read(flow, tick, remote)?;
        leave(flow);
        Ok(())
    }
}

/// Whether the application has the connection, past its opening.
fn is_served(flow: &LiveFlow) -> bool
    ensures { result ≡ is_served flow.now }
{
    flow.is_held() && !matches!(flow.stage(), Stage::Opening)
}

/// The application accepts it, where it stands and is not held yet. The error is want of memory.
fn accept(flow: &mut LiveFlow, tick: u32) -> Result<(), AllocError>
    ensures { (content : Content) (s : ModelShown)
        → OnOk result (flow.new ≡ at_stage Accepting tick content s flow.old) }
{
    if !flow.is_held() && matches!(flow.stage(), Stage::Running) {
        flow.accept(THE_APP, tick)?;
    }
    Ok(())
}

/// The application gives the connection up, where a local segment resets it. The error is want of memory.
fn abort(flow: &mut LiveFlow, tick: u32, resets: bool) -> Result<(), AllocError>
    ensures { (content : Content) (s : ModelShown) → resets_here content ≡ resets
        → OnOk result (flow.new ≡ at_stage Aborting tick content s flow.old) }
{
    if resets && (flow.is_held() || matches!(flow.stage(), Stage::Opening)) {
        flow.ask(Caller::App(THE_APP), tick, &CallIn::Abort)?;
    }
    Ok(())
}

/// The application reads all that came, where the segment is a remote one. The error is want of memory.
fn read(flow: &mut LiveFlow, tick: u32, remote: bool) -> Result<(), AllocError>
    ensures { (content : Content) (s : ModelShown) → is_remote content ≡ remote
        → OnOk result (flow.new ≡ at_stage Receiving tick content s flow.old) }
{
    if remote && is_served(flow) {
        flow.ask(Caller::App(THE_APP), tick, &CallIn::Recv { most: 65535 })?;
    }
    Ok(())
}

/// The application gives up its socket, where the flow is closed.
fn leave(flow: &mut LiveFlow)
    ensures { (content : Content) (s : ModelShown) (tick : ℕ) → flow.new ≡ at_stage Leaving tick content s flow.old }
{
    if flow.is_over() && flow.is_held() {
        flow.hold(Holder::GivenUp);
    }
}

/// The bytes of a local segment from the first place on that was not yet shown, where it has that place. `sent` bytes
/// were taken, and `waiting` more were shown.
fn fresh_bytes<'a>(iss: Seq, seg: &Segment<'a>, sent: u128, waiting: usize) -> &'a [u8]
    requires near { sent < 2 ^ 127 }
    ensures { result.now ≡ model_fresh iss.0 (seg_of seg.now) (sent + waiting) }
{
    let shown = sent + waiting as u128;
    let wanted = shown + 0x1_0000_0001;
    let first = raised(shown + 1, seg.seq.minus(iss)) + u128::from(seg.flags.is_syn());
    if first > wanted {
        return &[];
    }
    let known = wanted - first;
    if known >= seg.payload.len() as u128 {
        return &[];
    }
    &seg.payload[known as usize..]
}

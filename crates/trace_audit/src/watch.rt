//! The flow that is shown, and whether it is right so far.

ghost use Rattle.std.specs.Prelude.{◌≡◌, ◌<◌, ◌∷◌, [], length, slice_get, List, Some, IfOk, IfSome, IfNone, OnOk};
ghost use Rattle.std.specs.Prelude.{true, false};
ghost use Rattle.tas_model.specs.declared.entry.HostParams.{HostParams};
ghost use Rattle.tas_model.specs.LegalHistory.{Legal};
ghost use Rattle.tas_model.specs.Valid.{InRange};
ghost use Rattle.host_rounds.specs.Lists.{Each};
ghost use Rattle.flow_judge.specs.Judging.{HasJudged};
ghost use Rattle.report_lines.specs.Views.{seen_entry, seen_line};
ghost use Rattle.report_lines.specs.Lines.{Made, State, Read};
ghost use Rattle.trace_audit.specs.Shown.{Now, with_line, nothing_shown, begun as model_begun};
ghost use Rattle.trace_audit.specs.Right.{has_addr as model_has_addr, IsFromPeer, IsRightNow};
ghost use Rattle.trace_audit.specs.Watching.{Comes, FlowWatched, Watches, IsReady};

use flow_judge::FlowJudge;
use report_lines::{CallLine, EntryLine, HexText, ReportLine};
use std::alloc::{AllocError, Global};
use tas_model::{FlowId, FourTuple, HostParams, Phase, Reason};

/// A flow that begins: the parameters of its host, its slot and its ends.
#[derive(Clone, Copy)]
pub struct Begun {
    pub params: HostParams,
    pub id: FlowId,
    pub tuple: FourTuple,
}

/// The flow that is shown.
#[derive(Drop)]
pub enum Watched {
    /// None is.
    Nothing,
    /// It begins.
    Begun(Begun),
    /// It is right so far.
    Judged(FlowJudge),
}

/// Which host's lines are read, and the flow of it that is shown.
#[derive(Drop)]
pub struct Watch {
    pub host: usize,
    pub flow: Watched,
}

/// Whether the host of this number has this address.
fn is_addr_of(hosts: &[HostParams], host: u32, addr: u32) -> bool
    ensures { result ≡ model_has_addr (slice_get hosts.now host) addr }
{
    match hosts.get(host as usize) {
        Some(params) => params.addr == addr,
        None => false,
    }
}

/// Whether a flow's first entry comes from its other end: a Passive names a frame of the host there.
fn is_from_peer(hosts: &[HostParams], tuple: &FourTuple, entry: &EntryLine<'_>) -> bool
    ensures right { result ≡ true → IsFromPeer hosts.now tuple.now (seen_entry entry.now).call }
    ensures wrong { result ≡ false → IsFromPeer hosts.now tuple.now (seen_entry entry.now).call → ⊥ }
{
    match &entry.call {
        CallLine::Passive { frame, .. } => is_addr_of(hosts, frame.host, tuple.raddr),
        _ => true,
    }
}

/// A judge of the flow that begins, which has taken its first entry; `None` where that is not right. The error is want
/// of memory.
fn opened(
    alloc: Global,
    hosts: &[HostParams],
    begun: &Begun,
    entry: &EntryLine<'_>,
) -> Result<Option<FlowJudge>, AllocError>
    requires ranges { InRange begun.now.params }
    ensures params { IfOk result (λ r. IfSome r (λ j. j.params ≡ begun.now.params)) }
    ensures judged { IfOk result (λ r. IfSome r (λ j. HasJudged j (seen_entry entry.now ∷ []))) }
    ensures peer { IfOk result (λ r. IfSome r
        (λ j. IsFromPeer hosts.now begun.now.tuple (seen_entry entry.now).call)) }
    ensures wrong { IfOk result (λ r. IfNone r (Legal begun.now.params (seen_entry entry.now ∷ [])
        → IsFromPeer hosts.now begun.now.tuple (seen_entry entry.now).call → ⊥)) }
{
    if !is_from_peer(hosts, &begun.tuple, entry) {
        return Ok(None);
    }
    let judge = FlowJudge::open(alloc, begun.id, begun.tuple, &begun.params, entry)?;
    Ok(judge)
}

/// The flow that begins on the host of this number.
fn begun_on(hosts: &[HostParams], host: usize, id: FlowId, tuple: FourTuple) -> Watched
    requires { Each InRange hosts.now }
    ensures ready { IsReady result }
    ensures begun { (n : Now) → host ≡ n.host → n.host < length hosts.now
        → FlowWatched hosts.now result (record { host = n.host; flow = Some (model_begun tuple) }) }
{
    match hosts.get(host) {
        Some(params) => Watched::Begun(Begun {
            params: *params,
            id,
            tuple,
        }),
        None => Watched::Nothing,
    }
}

impl Watched {
    /// Takes an entry. The error is want of memory.
    fn take(
        &mut self,
        alloc: Global,
        hosts: &[HostParams],
        entry: &EntryLine<'_>,
    ) -> Result<bool, AllocError>
        requires ready { IsReady self.old }
        ensures ready { OnOk result (IsReady self.new) }
        ensures right { IfOk result (λ right. right ≡ true → (n : Now) → FlowWatched hosts.now self.old n
            → Comes (length hosts.now) n (Made (seen_entry entry.now))
            → FlowWatched hosts.now self.new (with_line n (Made (seen_entry entry.now)))) }
        ensures wrong { IfOk result (λ right. right ≡ false → (n : Now) → FlowWatched hosts.now self.old n
            → Comes (length hosts.now) n (Made (seen_entry entry.now))
            → IsRightNow hosts.now (with_line n (Made (seen_entry entry.now))) → ⊥) }
    {
        match self {
            Watched::Nothing => Ok(true),
            Watched::Begun(begun) => {
                let Some(judge) = opened(alloc, hosts, begun, entry)? else {
                    return Ok(false);
                };
                *self = Watched::Judged(judge);
                Ok(true)
            }
            Watched::Judged(judge) => {
                let may = judge.take(alloc, entry)?;
                Ok(may)
            }
        }
    }

    /// Whether the flow is in this state.
    fn is_in(&self, phase: Phase, reason: Option<Reason>) -> bool
        ensures right { result ≡ true → (hosts : List HostParams) → (n : Now) → FlowWatched hosts self.now n
            → Comes (length hosts) n (State phase reason)
            → FlowWatched hosts self.now (with_line n (State phase reason)) }
        ensures wrong { result ≡ false → (hosts : List HostParams) → (n : Now) → FlowWatched hosts self.now n
            → Comes (length hosts) n (State phase reason) → IsRightNow hosts (with_line n (State phase reason)) → ⊥ }
    {
        match self {
            Watched::Judged(judge) => judge.is_in(phase, reason),
            Watched::Nothing | Watched::Begun(_) => true,
        }
    }

    /// Whether these bytes were read, and so many.
    fn has_read(&self, count: u64, bytes: &HexText<'_>) -> bool
        ensures right { result ≡ true → (hosts : List HostParams) → (n : Now) → FlowWatched hosts self.now n
            → Comes (length hosts) n (Read count bytes.now)
            → FlowWatched hosts self.now (with_line n (Read count bytes.now)) }
        ensures wrong { result ≡ false → (hosts : List HostParams) → (n : Now) → FlowWatched hosts self.now n
            → Comes (length hosts) n (Read count bytes.now)
            → IsRightNow hosts (with_line n (Read count bytes.now)) → ⊥ }
    {
        match self {
            Watched::Judged(judge) => judge.has_read(count, bytes),
            Watched::Nothing | Watched::Begun(_) => true,
        }
    }
}

impl Watch {
    /// Nothing is shown.
    pub fn new() -> Watch
        ensures ready { IsReady result.flow }
        ensures watches { (hosts : List HostParams) → Watches hosts result nothing_shown }
    {
        Watch {
            host: 0,
            flow: Watched::Nothing,
        }
    }

    /// Judges a line. The error is want of memory.
    pub fn judge(
        &mut self,
        alloc: Global,
        hosts: &[HostParams],
        line: &ReportLine<'_>,
    ) -> Result<bool, AllocError>
        requires ranges { Each InRange hosts.now }
        requires ready { IsReady self.old.flow }
        ensures ready { OnOk result (IsReady self.new.flow) }
        ensures right { IfOk result (λ right. right ≡ true → (n : Now) → Watches hosts.now self.old n
            → Comes (length hosts.now) n (seen_line line.now)
            → Watches hosts.now self.new (with_line n (seen_line line.now))) }
        ensures wrong { IfOk result (λ right. right ≡ false → (n : Now) → Watches hosts.now self.old n
            → Comes (length hosts.now) n (seen_line line.now)
            → IsRightNow hosts.now (with_line n (seen_line line.now)) → ⊥) }
    {
        match line {
            ReportLine::Host { host, .. } => {
                self.host = *host;
                self.flow = Watched::Nothing;
                Ok(true)
            }
            ReportLine::Begins { id, tuple, .. } => {
                self.flow = begun_on(hosts, self.host, *id, *tuple);
                Ok(true)
            }
            ReportLine::Made(entry) => {
                let right = self.flow.take(alloc, hosts, entry)?;
                Ok(right)
            }
            ReportLine::State { phase, reason } => Ok(self.flow.is_in(*phase, *reason)),
            ReportLine::Read { count, bytes } => Ok(self.flow.has_read(*count, bytes)),
            ReportLine::Title | ReportLine::Logged { .. } | ReportLine::End { .. } => Ok(true),
        }
    }
}

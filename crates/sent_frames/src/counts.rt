//! How many segments each flow has sent.

ghost use Rattle.std.specs.Prelude.{◌≡◌, ℕ, ◌≤◌, ◌<◌, ◌^◌, ◌++◌, [], length, take, slice_set, slice_index, OnOk};
ghost use Rattle.std.specs.Prelude.{vec_len};
ghost use Rattle.std.specs.Prelude.{replicate, ◌-◌};
ghost use Rattle.scenario_runs.specs.Worlds.{World, host_at, frames_of_entries, frames_of_log};
ghost use Rattle.sent_frames.specs.Sending.{addresses_of, of_tick, AreUpTo, LinesBefore, sent_by, sent_before};
ghost use Rattle.sent_frames.specs.Sending.{answers_in};

use crate::flows::collect_flow;
use crate::frames::Sender;
use crate::strays::collect_lines;
use flow_state::FlowRecord;
use link_script::SentList;
use std::alloc::{AllocError, Global};
use tas_core::HostLog;

/// How many frames a host sent so far: each flow, by its opening number, and the host itself in answer to segments of
/// no
/// flow. `lines` are those of its log that show these answers: the ones that were looked at.
#[derive(Drop)]
pub struct SentCounts {
    pub flows: Vec<u64>,
    pub answers: u64,
    pub lines: usize,
}

impl SentCounts {
    /// Of a host that sent nothing and has no flows. It takes no memory.
    pub fn new(alloc: Global) -> SentCounts
        ensures flows { result.flows.items ≡ [] }
        ensures answers { result.answers ≡ 0 }
        ensures lines { result.lines ≡ 0 }
    {
        SentCounts {
            flows: Vec::new(alloc),
            answers: 0,
            lines: 0,
        }
    }

    /// There are so many flows now; the new ones sent nothing. The error is want of memory.
    pub fn open_to(&mut self, flows: usize) -> Result<(), AllocError>
        requires { vec_len self.old.flows ≤ flows }
        ensures flows { OnOk result (self.new.flows.items
            ≡ self.old.flows.items ++ replicate (flows - vec_len self.old.flows) 0) }
        ensures answers { self.new.answers ≡ self.old.answers }
        ensures lines { self.new.lines ≡ self.old.lines }
    {
        self.flows.resize(flows, 0)
    }

    /// Collects the frames that the flow with this opening number sent in a tick, behind those that it sent before, and
    /// counts them. The error is want of memory.
    #[inline(always)]
    pub fn collect_flow(
        &mut self,
        alloc: Global,
        sender: &Sender<'_>,
        flow: u32,
        tick: u32,
        history: &FlowRecord,
        sent: &mut SentList,
    ) -> Result<(), AllocError>
        requires hosts { length sender.now.addresses.now < 2 ^ 32 }
        requires flow { flow < vec_len self.old.flows }
        requires number { slice_index self.old.flows.items flow ≡ sent_before tick history.now.entries }
        requires last { AreUpTo tick sent.old }
        ensures frames { (world : World) → sender.now.addresses.now ≡ addresses_of world → OnOk result (sent.new
            ≡ sent.old ++ of_tick tick (frames_of_entries sender.now.host flow 0
            (host_at world history.now.tuple.raddr) history.now.tuple history.now.entries)) }
        ensures flows { OnOk result (self.new.flows.items
            ≡ slice_set self.old.flows.items flow (sent_by history.now.entries)) }
        ensures answers { self.new.answers ≡ self.old.answers }
        ensures lines { self.new.lines ≡ self.old.lines }
        ensures last { OnOk result (AreUpTo tick sent.new) }
    {
        let place = flow as usize;
        let number = self.flows[place];
        self.flows[place] = collect_flow(alloc, sender, flow, number, tick, history, sent)?;
        Ok(())
    }

    /// Collects the answers to segments of no flow that the host sent in a tick, by the lines of its log that were not
    /// looked at, and counts them. The error is want of memory.
    pub fn collect_answers(
        &mut self,
        alloc: Global,
        sender: &Sender<'_>,
        tick: u32,
        log: &HostLog,
        sent: &mut SentList,
    ) -> Result<(), AllocError>
        requires hosts { length sender.now.addresses.now < 2 ^ 32 }
        requires lines { self.old.lines ≤ length log.now }
        requires earlier { LinesBefore tick (take self.old.lines log.now) }
        requires number { self.old.answers ≡ answers_in (take self.old.lines log.now) }
        requires last { AreUpTo tick sent.old }
        ensures frames { (world : World) → sender.now.addresses.now ≡ addresses_of world → OnOk result (sent.new
            ≡ sent.old ++ of_tick tick (frames_of_log world sender.now.host 0 log.now)) }
        ensures flows { self.new.flows ≡ self.old.flows }
        ensures answers { OnOk result (self.new.answers ≡ answers_in log.now) }
        ensures lines { OnOk result (self.new.lines ≡ length log.now) }
        ensures last { OnOk result (AreUpTo tick sent.new) }
    {
        let lines = log.len();
        let new = log.stretches_after(self.lines);
        self.answers = collect_lines(alloc, sender, self.answers, tick, new, sent)?;
        self.lines = lines;
        Ok(())
    }
}

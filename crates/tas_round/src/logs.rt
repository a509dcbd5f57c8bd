//! The log of a run: its hosts, each with its lines and the histories of its flows.

ghost use Rattle.std.specs.Prelude.{◌≡◌, ◌<◌, length, slice_get, Some};
ghost use Rattle.host_rounds.specs.Lists.{Each};
ghost use Rattle.local_host.specs.Live.{IsLegal};

use flow_state::FlowHistory;
use std::marker::Model;
use tas_core::HostLog;
use tas_model::Bytes;

/// The histories of a host's flows in the order of their opening, seen as their list. Each is a legal one.
#[derive(Drop)]
pub struct FlowList {
    histories: Vec<FlowHistory>,
}

impl Model for FlowList {
    ghost use Rattle.std.specs.Prelude.{List};
    ghost use Rattle.flow_state.specs.Flow.{History};
    ghost use Rattle.host_rounds.specs.Lists.{Each};
    ghost use Rattle.local_host.specs.Live.{IsLegal};

    ghost Value = { List History };

    ghost view = { λ f. f.histories.items };

    ghost invariant = { λ f. Each IsLegal f.histories.items };
}

impl FlowList {
    /// These histories.
    pub fn of(histories: Vec<FlowHistory>) -> FlowList
        requires legal { Each IsLegal histories.items }
        ensures { result ≡ histories.items }
    {
        FlowList { histories }
    }

    /// How many flows were opened.
    pub fn len(&self) -> usize
        ensures { result ≡ length self.now }
    {
        self.histories.len()
    }

    /// The history of the flow that was opened as number `i`, counted from 0.
    pub fn item(&self, i: usize) -> &FlowHistory
        requires { i < length self.now }
        ensures { slice_get self.now i ≡ Some result.now }
    {
        &self.histories[i]
    }

    /// All histories.
    pub fn as_slice(&self) -> &[FlowHistory]
        ensures histories { result.now ≡ self.now }
        ensures legal { Each IsLegal self.now }
    {
        self.histories.as_slice()
    }
}

/// What a run leaves of a host: its log, and its flows with their histories.
#[derive(Drop)]
pub struct HostRun {
    /// Its name, `local` in a replay.
    pub name: Bytes,
    /// Its IPv4 address.
    pub addr: u32,
    pub log: HostLog,
    pub flows: FlowList,
}

/// The hosts of a run in their order, seen as their list.
#[derive(Drop)]
pub struct HostRuns {
    hosts: Vec<HostRun>,
}

impl Model for HostRuns {
    ghost use Rattle.std.specs.Prelude.{List};
    ghost use Rattle.tas_round.specs.declared.logs.HostRun.{HostRun};

    ghost Value = { List HostRun };

    ghost view = { λ h. h.hosts.items };
}

impl HostRuns {
    /// These hosts.
    pub fn of(hosts: Vec<HostRun>) -> HostRuns
        ensures { result ≡ hosts.items }
    {
        HostRuns { hosts }
    }

    /// How many hosts there are.
    pub fn len(&self) -> usize
        ensures { result ≡ length self.now }
    {
        self.hosts.len()
    }

    /// The host with number `i`, counted from 0.
    pub fn item(&self, i: usize) -> &HostRun
        requires { i < length self.now }
        ensures { slice_get self.now i ≡ Some result.now }
    {
        &self.hosts[i]
    }
}

/// The log of a whole run.
#[derive(Drop)]
pub struct RunLog {
    /// Whether it replays a capture. Otherwise it runs scripts.
    pub replay: bool,
    pub hosts: HostRuns,
    /// How many ticks it had.
    pub ticks: u32,
    /// Whether a script has not ended after the last tick.
    pub stalled: bool,
    /// The records of the capture.
    pub records: u32,
    /// Those of them that are segments which concern the host.
    pub frames: u32,
    /// Those of them that were passed over.
    pub passed: u32,
    /// Those of them that break a rule of reading.
    pub refused: u32,
}

//! Short texts of lines: calls, replies and events.

ghost use Rattle.std.specs.Prelude.{◌≡◌, ℕ, ◌≤◌, length, codes, if◌then◌else◌};

use crate::buffer::Buffer;
use crate::text::{Text, add, add_number, add_wide};
use crate::texts::{
    AddrText, EntryStart, FlowName, PortText, TupleText, WindowText, phase_name, reason_name,
};
use crate::whole::Counts;
use tas_model::{FourTuple, Phase, Reason};

/// The call of a flow that its own host opens, with its first number.
#[derive(Clone, Copy)]
pub struct ConnectText(pub u32);

impl Text for ConnectText {
    ghost use Rattle.std.specs.Prelude.{◌++◌, codes, decimal};

    ghost text = { λ t. codes "connect iss " ++ decimal t.0 };

    ghost most = { 22 };

    fn add_to(&self, waiting: &mut Buffer) {
        add(waiting, b"connect iss ");
        add_number(waiting, self.0);
    }
}

/// The first number of a flow that the peer's SYN opens.
#[derive(Clone, Copy)]
pub struct IssText(pub u32);

impl Text for IssText {
    ghost use Rattle.std.specs.Prelude.{◌++◌, codes, decimal};

    ghost text = { λ t. codes " iss " ++ decimal t.0 ++ codes " " };

    ghost most = { 16 };

    fn add_to(&self, waiting: &mut Buffer) {
        add(waiting, b" iss ");
        add_number(waiting, self.0);
        add(waiting, b" ");
    }
}

/// A Send, with how many bytes were offered.
#[derive(Clone, Copy)]
pub struct SendText(pub u32);

impl Text for SendText {
    ghost use Rattle.std.specs.Prelude.{◌++◌, codes, decimal};

    ghost text = { λ t. codes "send " ++ decimal t.0 };

    ghost most = { 15 };

    fn add_to(&self, waiting: &mut Buffer) {
        add(waiting, b"send ");
        add_number(waiting, self.0);
    }
}

/// A Recv, with how many bytes were asked for at most.
#[derive(Clone, Copy)]
pub struct RecvText(pub u32);

impl Text for RecvText {
    ghost use Rattle.std.specs.Prelude.{◌++◌, codes, decimal};

    ghost text = { λ t. codes "recv " ++ decimal t.0 };

    ghost most = { 15 };

    fn add_to(&self, waiting: &mut Buffer) {
        add(waiting, b"recv ");
        add_number(waiting, self.0);
    }
}

/// The line of a Control: what an entry's line begins with, and the window and threshold that came of it.
#[derive(Clone, Copy)]
pub struct ControlLine {
    pub start: EntryStart,
    pub window: WindowText,
}

impl Text for ControlLine {
    ghost use Rattle.std.specs.Prelude.{[]};
    ghost use Rattle.tas_runs.specs.Report.{entry_text};
    ghost use Rattle.flow_state.specs.Stretches.{control_entry};

    ghost text = { λ t. entry_text [] (control_entry t.start.caller t.start.number t.start.tick t.window.cwnd
        t.window.ssthresh) };

    ghost most = { 90 };

    fn add_to(&self, waiting: &mut Buffer) {
        self.start.add_to(waiting);
        add(waiting, b"control");
        add(waiting, b" = ");
        self.window.add_to(waiting);
        add(waiting, b"\n");
    }
}

/// The reply of a closed endpoint, with the reason.
#[derive(Clone, Copy)]
pub struct ClosedText(pub Reason);

impl Text for ClosedText {
    ghost use Rattle.std.specs.Prelude.{◌++◌, codes};
    ghost use Rattle.tas_runs.specs.Report.{reason_text};

    ghost text = { λ t. codes "closed " ++ reason_text t.0 };

    ghost most = { 15 };

    fn add_to(&self, waiting: &mut Buffer) {
        add(waiting, b"closed ");
        add(waiting, reason_name(self.0));
    }
}

/// The first line of a flow: which it is, and its ends.
#[derive(Clone, Copy)]
pub struct FlowLine {
    pub name: FlowName,
    pub tuple: FourTuple,
}

impl Text for FlowLine {
    ghost use Rattle.std.specs.Prelude.{◌++◌, codes, decimal};
    ghost use Rattle.tas_runs.specs.Report.{line, tuple_text};

    ghost text = { λ t. line (codes "flow " ++ decimal t.name.number ++ codes " slot " ++ decimal t.name.id.slot
        ++ codes "." ++ decimal t.name.id.generation ++ codes " " ++ tuple_text t.tuple) };

    ghost most = { 153 };

    fn add_to(&self, waiting: &mut Buffer) {
        self.name.add_to(waiting);
        add(waiting, b" ");
        TupleText(self.tuple).add_to(waiting);
        add(waiting, b"\n");
    }
}

/// The line of a flow's state.
#[derive(Clone, Copy)]
pub struct StateLine(pub Phase);

impl Text for StateLine {
    ghost use Rattle.std.specs.Prelude.{◌++◌, codes};
    ghost use Rattle.tas_runs.specs.Report.{line, phase_text};

    ghost text = { λ t. line (codes "state " ++ phase_text t.0) };

    ghost most = { 19 };

    fn add_to(&self, waiting: &mut Buffer) {
        add(waiting, b"state ");
        add(waiting, phase_name(self.0));
        add(waiting, b"\n");
    }
}

/// The line of a flow's state with the reason why it is closed.
#[derive(Clone, Copy)]
pub struct ClosedLine {
    pub phase: Phase,
    pub reason: Reason,
}

impl Text for ClosedLine {
    ghost use Rattle.std.specs.Prelude.{◌++◌, codes};
    ghost use Rattle.tas_runs.specs.Report.{line, phase_text, reason_text};

    ghost text = { λ t. line (codes "state " ++ phase_text t.phase ++ codes " " ++ reason_text t.reason) };

    ghost most = { 28 };

    fn add_to(&self, waiting: &mut Buffer) {
        add(waiting, b"state ");
        add(waiting, phase_name(self.phase));
        add(waiting, b" ");
        add(waiting, reason_name(self.reason));
        add(waiting, b"\n");
    }
}

/// How many bytes were read.
#[derive(Clone, Copy)]
pub struct ReadText(pub u128);

impl Text for ReadText {
    ghost use Rattle.std.specs.Prelude.{◌++◌, codes, decimal};

    ghost text = { λ t. codes "read " ++ decimal t.0 ++ codes " " };

    ghost most = { 46 };

    fn add_to(&self, waiting: &mut Buffer) {
        add(waiting, b"read ");
        add_wide(waiting, self.0);
        add(waiting, b" ");
    }
}

/// The tick that a line of the log begins with.
#[derive(Clone, Copy)]
pub struct TickText(pub u32);

impl Text for TickText {
    ghost use Rattle.std.specs.Prelude.{◌++◌, codes, decimal};

    ghost text = { λ t. decimal t.0 ++ codes " " };

    ghost most = { 11 };

    fn add_to(&self, waiting: &mut Buffer) {
        add_number(waiting, self.0);
        add(waiting, b" ");
    }
}

/// What an application's asking to listen got.
#[derive(Clone, Copy)]
pub struct ListenText {
    pub app: u32,
    pub port: u16,
    pub ok: bool,
}

impl Text for ListenText {
    ghost use Rattle.std.specs.Prelude.{◌++◌, codes, decimal, if◌then◌else◌};

    ghost text = { λ t. codes "p" ++ decimal t.app ++ codes " listen " ++ decimal t.port ++ codes " = "
        ++ (if t.ok then codes "ok" else codes "portinuse") };

    ghost most = { 36 };

    fn add_to(&self, waiting: &mut Buffer) {
        add(waiting, b"p");
        add_number(waiting, self.app);
        add(waiting, b" listen ");
        add_number(waiting, self.port);
        add(waiting, b" = ");
        add(waiting, listen_answer(self.ok));
    }
}

/// The answer to an application that asks to listen.
fn listen_answer(ok: bool) -> &'static [u8]
    ensures text { result.now ≡ (if ok then codes "ok" else codes "portinuse") }
    ensures short { length result.now ≤ 9 }
{
    if ok { b"ok" } else { b"portinuse" }
}

/// That an application found no connection at its listener.
#[derive(Clone, Copy)]
pub struct AcceptText {
    pub app: u32,
    pub port: u16,
}

impl Text for AcceptText {
    ghost use Rattle.std.specs.Prelude.{◌++◌, codes, decimal};

    ghost text = { λ t. codes "p" ++ decimal t.app ++ codes " accept " ++ decimal t.port ++ codes " = notyet" };

    ghost most = { 33 };

    fn add_to(&self, waiting: &mut Buffer) {
        add(waiting, b"p");
        add_number(waiting, self.app);
        add(waiting, b" accept ");
        add_number(waiting, self.port);
        add(waiting, b" = notyet");
    }
}

/// Why an application's connect was refused.
#[derive(Clone, Copy)]
pub struct RefusedConnect {
    pub app: u32,
    pub remote: PortText,
    pub no_port: bool,
}

impl Text for RefusedConnect {
    ghost use Rattle.std.specs.Prelude.{◌++◌, codes, decimal, if◌then◌else◌};
    ghost use Rattle.tas_runs.specs.Report.{port_text};

    ghost text = { λ t. codes "p" ++ decimal t.app ++ codes " connect " ++ port_text t.remote.addr t.remote.port
        ++ codes " = " ++ (if t.no_port then codes "noport" else codes "noflowslot") };

    ghost most = { 82 };

    fn add_to(&self, waiting: &mut Buffer) {
        add(waiting, b"p");
        add_number(waiting, self.app);
        add(waiting, b" connect ");
        self.remote.add_to(waiting);
        add(waiting, b" = ");
        add(waiting, connect_want(self.no_port));
    }
}

/// What was wanting for a connect: a port, or a slot for the flow.
fn connect_want(no_port: bool) -> &'static [u8]
    ensures text { result.now ≡ (if no_port then codes "noport" else codes "noflowslot") }
    ensures short { length result.now ≤ 10 }
{
    if no_port { b"noport" } else { b"noflowslot" }
}

/// What was wanting for a SYN: room in the listener's backlog where it is true, and else a slot for the flow.
#[derive(Clone, Copy)]
pub struct WantText(pub bool);

impl Text for WantText {
    ghost use Rattle.std.specs.Prelude.{◌++◌, codes, if◌then◌else◌};

    ghost text = { λ t. codes " = " ++ (if t.0 then codes "backlogfull" else codes "noflowslot") };

    ghost most = { 14 };

    fn add_to(&self, waiting: &mut Buffer) {
        if self.0 {
            add(waiting, b" = backlogfull");
        } else {
            add(waiting, b" = noflowslot");
        }
    }
}

/// The rule of reading that a packet breaks.
#[derive(Clone, Copy)]
pub struct RuleText(pub u8);

impl Text for RuleText {
    ghost use Rattle.std.specs.Prelude.{◌++◌, codes, decimal};

    ghost text = { λ t. codes " = " ++ decimal t.0 };

    ghost most = { 6 };

    fn add_to(&self, waiting: &mut Buffer) {
        add(waiting, b" = ");
        add_number(waiting, self.0);
    }
}

/// The end of the first line of a host: its address.
#[derive(Clone, Copy)]
pub struct HostEnd(pub u32);

impl Text for HostEnd {
    ghost use Rattle.std.specs.Prelude.{◌++◌, codes};
    ghost use Rattle.tas_runs.specs.Report.{line, addr_text};

    ghost text = { λ t. line (codes " " ++ addr_text t.0) };

    ghost most = { 45 };

    fn add_to(&self, waiting: &mut Buffer) {
        add(waiting, b" ");
        AddrText(self.0).add_to(waiting);
        add(waiting, b"\n");
    }
}

/// The line of the counts of a replay.
#[derive(Clone, Copy)]
pub struct CountsLine(pub Counts);

impl Text for CountsLine {
    ghost use Rattle.std.specs.Prelude.{◌++◌, codes, decimal};
    ghost use Rattle.tas_runs.specs.Report.{line};

    ghost text = { λ t. line (codes "records " ++ decimal t.0.records ++ codes " frames " ++ decimal t.0.frames
        ++ codes " passed " ++ decimal t.0.passed ++ codes " refused " ++ decimal t.0.refused) };

    ghost most = { 114 };

    fn add_to(&self, waiting: &mut Buffer) {
        let counts = self.0;
        add(waiting, b"records ");
        add_number(waiting, counts.records);
        add(waiting, b" frames ");
        add_number(waiting, counts.frames);
        add(waiting, b" passed ");
        add_number(waiting, counts.passed);
        add(waiting, b" refused ");
        add_number(waiting, counts.refused);
        add(waiting, b"\n");
    }
}

/// The last line of a report.
#[derive(Clone, Copy)]
pub struct EndLine(pub u32);

impl Text for EndLine {
    ghost use Rattle.std.specs.Prelude.{◌++◌, codes, decimal};
    ghost use Rattle.tas_runs.specs.Report.{line};

    ghost text = { λ t. line (codes "end " ++ decimal t.0 ++ codes " ticks") };

    ghost most = { 21 };

    fn add_to(&self, waiting: &mut Buffer) {
        add(waiting, b"end ");
        add_number(waiting, self.0);
        add(waiting, b" ticks\n");
    }
}

//! Short texts of segments, addresses and states.

ghost use Rattle.std.specs.Prelude.{◌≡◌, ℕ, ◌+◌, ◌<◌, ◌≤◌, ◌++◌, List, length};
ghost use Rattle.tas_runs.specs.Report.{letter, flags_text, reason_text, phase_text, copy_text};

use crate::buffer::Buffer;
use crate::text::{Text, add, add_number};
use tas_model::{Caller, FlowId, FourTuple, FrameId, Head, NO_FLOW, Phase, Reason};

/// The letters of control bits, or `-` where none is set.
#[derive(Clone, Copy)]
pub struct FlagsText(pub u8);

impl Text for FlagsText {
    ghost use Rattle.tas_runs.specs.Report.{flags_text};

    ghost text = { λ t. flags_text t.0 };

    ghost most = { 8 };

    fn add_to(&self, waiting: &mut Buffer) {
        // Nearly every segment has one of these, whose letters are put in one piece.
        match self.0 {
            0 => add(waiting, b"-"),
            2 => add(waiting, b"S"),
            16 => add(waiting, b"A"),
            17 => add(waiting, b"AF"),
            18 => add(waiting, b"AS"),
            24 => add(waiting, b"AP"),
            flags => add_letters(waiting, flags),
        }
    }
}

/// Puts the letters of control bits one by one.
fn add_letters(waiting: &mut Buffer, flags: u8)
    requires some_set { 0 < flags }
    requires room { length waiting.old + 8 ≤ 32768 }
    ensures text { waiting.new ≡ waiting.old ++ flags_text flags }
    ensures short { length waiting.new ≤ length waiting.old + 8 }
{
    add(waiting, one(flags, 128, b"C"));
    add(waiting, one(flags, 64, b"E"));
    add(waiting, one(flags, 32, b"U"));
    add(waiting, one(flags, 16, b"A"));
    add(waiting, one(flags, 8, b"P"));
    add(waiting, one(flags, 4, b"R"));
    add(waiting, one(flags, 2, b"S"));
    add(waiting, one(flags, 1, b"F"));
}

/// The letter of a control bit that is set.
fn one(flags: u8, bit: u8, text: &'static [u8]) -> &'static [u8]
    requires { 0 < bit }
    ensures text { result.now ≡ letter flags bit text.now }
    ensures short { length result.now ≤ length text.now }
{
    if flags / bit % 2 == 1 { text } else { b"" }
}

/// A segment without its payload.
#[derive(Clone, Copy)]
pub struct HeadText(pub Head);

impl Text for HeadText {
    ghost use Rattle.tas_runs.specs.Report.{head_text};

    ghost text = { λ t. head_text t.0 };

    ghost most = { 65 };

    #[inline(always)]
    fn add_to(&self, waiting: &mut Buffer) {
        let head = self.0;
        FlagsText(head.flags).add_to(waiting);
        add(waiting, b" seq ");
        add_number(waiting, head.seq.0);
        add(waiting, b" ack ");
        add_number(waiting, head.ack.0);
        add(waiting, b" win ");
        add_number(waiting, head.window);
        MssText(head.mss).add_to(waiting);
        ScaleText(head.scale).add_to(waiting);
    }
}

/// A maximum segment size, where there is one.
#[derive(Clone, Copy)]
struct MssText(Option<u16>);

impl Text for MssText {
    ghost use Rattle.tas_runs.specs.Report.{mss_text};

    ghost text = { λ t. mss_text t.0 };

    ghost most = { 10 };

    fn add_to(&self, waiting: &mut Buffer) {
        if let Some(mss) = self.0 {
            add(waiting, b" mss ");
            add_number(waiting, mss);
        }
    }
}

/// A window scale, where there is one.
#[derive(Clone, Copy)]
struct ScaleText(Option<u8>);

impl Text for ScaleText {
    ghost use Rattle.tas_runs.specs.Report.{scale_text};

    ghost text = { λ t. scale_text t.0 };

    ghost most = { 7 };

    fn add_to(&self, waiting: &mut Buffer) {
        if let Some(shift) = self.0 {
            add(waiting, b" ws ");
            add_number(waiting, shift);
        }
    }
}

/// The flow of a frame, or `x` where it is of none.
#[derive(Clone, Copy)]
struct FlowText(u32);

impl Text for FlowText {
    ghost use Rattle.tas_runs.specs.Report.{flow_text};

    ghost text = { λ t. flow_text t.0 };

    ghost most = { 10 };

    fn add_to(&self, waiting: &mut Buffer) {
        let flow = self.0;
        if flow == NO_FLOW {
            add(waiting, b"x");
        } else {
            add_number(waiting, flow);
        }
    }
}

/// Behind the name of a host its frame by flow and number, with a `+` where it is a second copy.
#[derive(Clone, Copy)]
pub struct PlaceText(pub FrameId);

impl Text for PlaceText {
    ghost use Rattle.std.specs.Prelude.{◌++◌, codes, decimal};
    ghost use Rattle.tas_runs.specs.Report.{flow_text, copy_text};

    ghost text = { λ t. codes ":" ++ flow_text t.0.flow ++ codes "." ++ decimal t.0.number ++ copy_text t.0.copy };

    ghost most = { 33 };

    fn add_to(&self, waiting: &mut Buffer) {
        add(waiting, b":");
        FlowText(self.0.flow).add_to(waiting);
        add(waiting, b".");
        add_number(waiting, self.0.number);
        add(waiting, copy_mark(self.0.copy));
    }
}

/// The mark of a second copy.
fn copy_mark(copy: u32) -> &'static [u8]
    ensures text { result.now ≡ copy_text copy }
    ensures short { length result.now ≤ 1 }
{
    if copy == 0 { b"" } else { b"+" }
}

/// A record of a capture by its number.
#[derive(Clone, Copy)]
pub struct RecordText(pub u64);

impl Text for RecordText {
    ghost use Rattle.std.specs.Prelude.{◌++◌, codes, decimal};

    ghost text = { λ t. codes "r:" ++ decimal t.0 };

    ghost most = { 22 };

    fn add_to(&self, waiting: &mut Buffer) {
        add(waiting, b"r:");
        add_number(waiting, self.0);
    }
}

/// An address in dotted decimals.
#[derive(Clone, Copy)]
pub struct AddrText(pub u32);

impl Text for AddrText {
    ghost use Rattle.tas_runs.specs.Report.{addr_text};

    ghost text = { λ t. addr_text t.0 };

    ghost most = { 43 };

    fn add_to(&self, waiting: &mut Buffer) {
        let addr = self.0;
        add_number(waiting, addr / 16777216);
        add(waiting, b".");
        add_number(waiting, addr / 65536 % 256);
        add(waiting, b".");
        add_number(waiting, addr / 256 % 256);
        add(waiting, b".");
        add_number(waiting, addr % 256);
    }
}

/// An address with a port.
#[derive(Clone, Copy)]
pub struct PortText {
    pub addr: u32,
    pub port: u16,
}

impl Text for PortText {
    ghost use Rattle.tas_runs.specs.Report.{port_text};

    ghost text = { λ t. port_text t.addr t.port };

    ghost most = { 49 };

    fn add_to(&self, waiting: &mut Buffer) {
        AddrText(self.addr).add_to(waiting);
        add(waiting, b":");
        add_number(waiting, self.port);
    }
}

/// Both ends of a connection, the local one first.
#[derive(Clone, Copy)]
pub struct TupleText(pub FourTuple);

impl Text for TupleText {
    ghost use Rattle.tas_runs.specs.Report.{tuple_text};

    ghost text = { λ t. tuple_text t.0 };

    ghost most = { 99 };

    fn add_to(&self, waiting: &mut Buffer) {
        let tuple = self.0;
        let local = PortText {
            addr: tuple.laddr,
            port: tuple.lport,
        };
        let remote = PortText {
            addr: tuple.raddr,
            port: tuple.rport,
        };
        local.add_to(waiting);
        add(waiting, b" ");
        remote.add_to(waiting);
    }
}

/// Who made an entry: the slow path, a core or an application.
#[derive(Clone, Copy)]
pub struct CallerText(pub Caller);

impl Text for CallerText {
    ghost use Rattle.tas_runs.specs.Report.{caller_text};

    ghost text = { λ t. caller_text t.0 };

    ghost most = { 11 };

    fn add_to(&self, waiting: &mut Buffer) {
        match self.0 {
            Caller::Slow => add(waiting, b"s"),
            Caller::Core(core) => {
                add(waiting, b"c");
                add_number(waiting, core);
            }
            Caller::App(app) => {
                add(waiting, b"p");
                add_number(waiting, app);
            }
        }
    }
}

/// Why an endpoint is closed.
pub fn reason_name(reason: Reason) -> &'static [u8]
    ensures text { result.now ≡ reason_text reason }
    ensures short { length result.now ≤ 8 }
{
    match reason {
        Reason::Done => b"done",
        Reason::Reset => b"reset",
        Reason::Refused => b"refused",
        Reason::TimedOut => b"timedout",
        Reason::Aborted => b"aborted",
    }
}

/// The state of a connection (RFC 9293, section 3.3.2).
pub fn phase_name(phase: Phase) -> &'static [u8]
    ensures text { result.now ≡ phase_text phase }
    ensures short { length result.now ≤ 12 }
{
    match phase {
        Phase::SynSent => b"SYN-SENT",
        Phase::SynReceived => b"SYN-RECEIVED",
        Phase::Established => b"ESTABLISHED",
        Phase::FinWait1 => b"FIN-WAIT-1",
        Phase::FinWait2 => b"FIN-WAIT-2",
        Phase::CloseWait => b"CLOSE-WAIT",
        Phase::Closing => b"CLOSING",
        Phase::LastAck => b"LAST-ACK",
        Phase::TimeWait => b"TIME-WAIT",
        Phase::Closed => b"CLOSED",
    }
}

/// What an entry's line begins with: its tick, its caller, and its number among that caller's entries.
#[derive(Clone, Copy)]
pub struct EntryStart {
    pub tick: u32,
    pub caller: Caller,
    pub number: u64,
}

impl Text for EntryStart {
    ghost use Rattle.std.specs.Prelude.{◌++◌, codes, decimal};
    ghost use Rattle.tas_runs.specs.Report.{caller_text};

    ghost text = { λ t. decimal t.tick ++ codes " " ++ caller_text t.caller ++ codes "." ++ decimal t.number
        ++ codes " " };

    ghost most = { 44 };

    fn add_to(&self, waiting: &mut Buffer) {
        add_number(waiting, self.tick);
        add(waiting, b" ");
        CallerText(self.caller).add_to(waiting);
        add(waiting, b".");
        add_number(waiting, self.number);
        add(waiting, b" ");
    }
}

/// The update that a Recv sent, where it sent one.
#[derive(Clone, Copy)]
pub struct UpdateText(pub Option<Head>);

impl Text for UpdateText {
    ghost use Rattle.tas_runs.specs.Report.{update_text};

    ghost text = { λ t. update_text t.0 };

    ghost most = { 71 };

    fn add_to(&self, waiting: &mut Buffer) {
        if let Some(head) = self.0 {
            add(waiting, b" then ");
            HeadText(head).add_to(waiting);
        }
    }
}

/// The answer that a segment of no flow got.
#[derive(Clone, Copy)]
pub struct AnswerText(pub Option<Head>);

impl Text for AnswerText {
    ghost use Rattle.tas_runs.specs.Report.{answer_text};

    ghost text = { λ t. answer_text t.0 };

    ghost most = { 65 };

    fn add_to(&self, waiting: &mut Buffer) {
        match self.0 {
            Some(head) => HeadText(head).add_to(waiting),
            None => add(waiting, b"none"),
        }
    }
}

/// What a Control set, in bytes.
#[derive(Clone, Copy)]
pub struct WindowText {
    pub cwnd: u32,
    pub ssthresh: u32,
}

impl Text for WindowText {
    ghost use Rattle.std.specs.Prelude.{◌++◌, codes, decimal};

    ghost text = { λ t. codes "cwnd " ++ decimal t.cwnd ++ codes " ssthresh " ++ decimal t.ssthresh };

    ghost most = { 35 };

    fn add_to(&self, waiting: &mut Buffer) {
        add(waiting, b"cwnd ");
        add_number(waiting, self.cwnd);
        add(waiting, b" ssthresh ");
        add_number(waiting, self.ssthresh);
    }
}

/// A flow by its opening number, its slot and the slot's generation.
#[derive(Clone, Copy)]
pub struct FlowName {
    pub number: u64,
    pub id: FlowId,
}

impl Text for FlowName {
    ghost use Rattle.std.specs.Prelude.{◌++◌, codes, decimal};

    ghost text = { λ t. codes "flow " ++ decimal t.number ++ codes " slot " ++ decimal t.id.slot ++ codes "."
        ++ decimal t.id.generation };

    ghost most = { 52 };

    fn add_to(&self, waiting: &mut Buffer) {
        add(waiting, b"flow ");
        add_number(waiting, self.number);
        add(waiting, b" slot ");
        add_number(waiting, self.id.slot);
        add(waiting, b".");
        add_number(waiting, self.id.generation);
    }
}

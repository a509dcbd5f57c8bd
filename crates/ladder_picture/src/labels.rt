//! The words of a picture.

ghost use Rattle.std.specs.Prelude.{◌≡◌, ◌<◌, ◌++◌, codes, OnOk};
ghost use Rattle.segment_fields.specs.ControlBits as bits;
ghost use Rattle.tas_runs.specs.Report.{letter, flags_text, mss_text, scale_text, reason_text, phase_text, port_text};
ghost use Rattle.ladder_picture.specs.Elements.{counted};
ghost use Rattle.ladder_picture.specs.Labels as rules;

use crate::row::{Asked, Fate, Frame, Note, Timer, Told};
use crate::text::{put, put_counted, put_number};
use std::alloc::AllocError;
use tas_model::{Phase, Reason};
use tas_num::Seq;

/// The sequence numbers that those of a sender and of its receiver are told from.
#[derive(Clone, Copy)]
pub struct Origins {
    pub sender: Seq,
    pub receiver: Seq,
}

/// Whether a control bit is set.
pub fn has(flags: u8, bit: u8) -> bool
    requires { 0 < bit }
    ensures { result ≡ bits.has flags bit }
{
    flags / bit % 2 == 1
}

/// Appends the letter of a control bit that is set.
fn put_flag(out: &mut Vec<u8>, flags: u8, bit: u8, text: &[u8]) -> Result<(), AllocError>
    requires { 0 < bit }
    ensures { OnOk result (out.new.items ≡ out.old.items ++ letter flags bit text.now) }
{
    if has(flags, bit) {
        return put(out, text);
    }
    Ok(())
}

/// Appends the letters of control bits: C E U A P R S F, or `-` for none.
fn put_flags(out: &mut Vec<u8>, flags: u8) -> Result<(), AllocError>
    ensures { OnOk result (out.new.items ≡ out.old.items ++ flags_text flags) }
{
    if flags == 0 {
        return put(out, b"-");
    }
    put_flag(out, flags, 128, b"C")?;
    put_flag(out, flags, 64, b"E")?;
    put_flag(out, flags, 32, b"U")?;
    put_flag(out, flags, 16, b"A")?;
    put_flag(out, flags, 8, b"P")?;
    put_flag(out, flags, 4, b"R")?;
    put_flag(out, flags, 2, b"S")?;
    put_flag(out, flags, 1, b"F")
}

/// Appends a sequence number, as one that counts from a first one.
fn put_seq(out: &mut Vec<u8>, first: Seq, seq: Seq) -> Result<(), AllocError>
    ensures { OnOk result (out.new.items ≡ out.old.items ++ counted (codes " ") (rules.behind first seq)) }
{
    put_counted(out, b" ", u128::from(seq.minus(first)))
}

/// Appends the number that is acknowledged, where one is, as one that counts from a first one.
fn put_ack(out: &mut Vec<u8>, flags: u8, first: Seq, ack: Seq) -> Result<(), AllocError>
    ensures { OnOk result (out.new.items ≡ out.old.items ++ rules.ack_text flags (rules.behind first ack)) }
{
    if has(flags, 16) {
        return put_counted(out, b" ack ", u128::from(ack.minus(first)));
    }
    Ok(())
}

/// Appends a window.
fn put_window(out: &mut Vec<u8>, window: u16) -> Result<(), AllocError>
    ensures { OnOk result (out.new.items ≡ out.old.items ++ counted (codes " win ") window) }
{
    put_counted(out, b" win ", u128::from(window))
}

/// Appends how many bytes a segment has, where it has some.
fn put_len(out: &mut Vec<u8>, len: usize) -> Result<(), AllocError>
    ensures { OnOk result (out.new.items ≡ out.old.items ++ rules.len_text len) }
{
    if len > 0 {
        return put_counted(out, b" len ", len as u128);
    }
    Ok(())
}

/// Appends a maximum segment size, where there is one.
fn put_mss(out: &mut Vec<u8>, mss: Option<u16>) -> Result<(), AllocError>
    ensures { OnOk result (out.new.items ≡ out.old.items ++ mss_text mss) }
{
    match mss {
        Some(mss) => put_counted(out, b" mss ", u128::from(mss)),
        None => Ok(()),
    }
}

/// Appends the shift of a window scale, where there is one.
fn put_scale(out: &mut Vec<u8>, scale: Option<u8>) -> Result<(), AllocError>
    ensures { OnOk result (out.new.items ≡ out.old.items ++ scale_text scale) }
{
    match scale {
        Some(shift) => put_counted(out, b" ws ", u128::from(shift)),
        None => Ok(()),
    }
}

/// Appends what is told of a frame: its flags, its numbers, its length and its window. The error is want of memory.
pub fn put_label(out: &mut Vec<u8>, origins: Origins, frame: &Frame) -> Result<(), AllocError>
    ensures { OnOk result (out.new.items ≡ out.old.items ++ rules.label_text origins frame.now) }
{
    let head = frame.head;
    put_flags(out, head.flags)?;
    put_seq(out, origins.sender, head.seq)?;
    put_ack(out, head.flags, origins.receiver, head.ack)?;
    put_len(out, frame.len)?;
    put_window(out, head.window)?;
    put_mss(out, head.mss)?;
    put_scale(out, head.scale)
}

/// Appends what was asked.
fn put_asked(out: &mut Vec<u8>, asked: Asked) -> Result<(), AllocError>
    ensures { OnOk result (out.new.items ≡ out.old.items ++ rules.asked_text asked) }
{
    match asked {
        Asked::Connect => put(out, b"connect"),
        Asked::Accept => put(out, b"accept"),
        Asked::Ready => put(out, b"ready"),
        Asked::Send { offered } => put_counted(out, b"send ", u128::from(offered)),
        Asked::Recv { most } => put_counted(out, b"recv ", u128::from(most)),
        Asked::Shut => put(out, b"shut"),
        Asked::Close => put(out, b"close"),
        Asked::Abort => put(out, b"abort"),
    }
}

/// Why an endpoint is closed.
fn reason_name(reason: Reason) -> &'static [u8]
    ensures { result.now ≡ reason_text reason }
{
    match reason {
        Reason::Done => b"done",
        Reason::Reset => b"reset",
        Reason::Refused => b"refused",
        Reason::TimedOut => b"timedout",
        Reason::Aborted => b"aborted",
    }
}

/// Appends that the connection is closed, and why.
fn put_closed(out: &mut Vec<u8>, reason: Reason) -> Result<(), AllocError>
    ensures { OnOk result (out.new.items ≡ out.old.items ++ (codes " = closed " ++ reason_text reason)) }
{
    put(out, b" = closed ")?;
    put(out, reason_name(reason))
}

/// Appends what was told.
fn put_told(out: &mut Vec<u8>, told: Told) -> Result<(), AllocError>
    ensures { OnOk result (out.new.items ≡ out.old.items ++ rules.told_text told) }
{
    match told {
        Told::Ok => put(out, b" = ok"),
        Told::Took { count } => put_counted(out, b" = took ", count as u128),
        Told::Got { count } => put_counted(out, b" = got ", count as u128),
        Told::End => put(out, b" = end"),
        Told::NotOpen => put(out, b" = notopen"),
        Told::Shut => put(out, b" = shut"),
        Told::Closed { reason } => put_closed(out, reason),
        Told::Done => Ok(()),
    }
}

/// The name of a timer that ran out.
fn timer_name(timer: Timer) -> &'static [u8]
    ensures { result.now ≡ rules.timer_text timer }
{
    match timer {
        Timer::Resend => b"timer: resend",
        Timer::Probe => b"timer: probe",
        Timer::TimedOut => b"timer: timedout",
        Timer::Expired => b"timer: done",
    }
}

/// Appends what was asked and told.
fn put_call(out: &mut Vec<u8>, asked: Asked, told: Told) -> Result<(), AllocError>
    ensures { OnOk result (out.new.items ≡ out.old.items ++ (rules.asked_text asked ++ rules.told_text told)) }
{
    put_asked(out, asked)?;
    put_told(out, told)
}

/// Appends a note. The error is want of memory.
pub fn put_note(out: &mut Vec<u8>, note: Note) -> Result<(), AllocError>
    ensures { OnOk result (out.new.items ≡ out.old.items ++ rules.note_text note) }
{
    match note {
        Note::Nothing => Ok(()),
        Note::Call { asked, told } => put_call(out, asked, told),
        Note::Timer(timer) => put(out, timer_name(timer)),
    }
}

/// The state of a connection (RFC 9293, section 3.3.2).
pub fn phase_name(phase: Phase) -> &'static [u8]
    ensures { result.now ≡ phase_text phase }
{
    match phase {
        Phase::SynSent => b"SYN-SENT",
        Phase::SynReceived => b"SYN-RECEIVED",
        Phase::Established => b"ESTABLISHED",
        Phase::FinWait1 => b"FIN-WAIT-1",
        Phase::FinWait2 => b"FIN-WAIT-2",
        Phase::CloseWait => b"CLOSE-WAIT",
        Phase::Closing => b"CLOSING",
        Phase::LastAck => b"LAST-ACK",
        Phase::TimeWait => b"TIME-WAIT",
        Phase::Closed => b"CLOSED",
    }
}

/// Appends what became of a frame that the connection had not. The error is want of memory.
pub fn put_fate(out: &mut Vec<u8>, fate: Option<Fate>) -> Result<(), AllocError>
    ensures { OnOk result (out.new.items ≡ out.old.items ++ rules.fate_text fate) }
{
    match fate {
        None => Ok(()),
        Some(Fate::Stray) => put(out, b"stray"),
        Some(Fate::Dropped { backlog: true }) => put(out, b"dropped: backlog full"),
        Some(Fate::Dropped { backlog: false }) => put(out, b"dropped: no slot"),
        Some(Fate::Refused { rule }) => put_counted(out, b"damaged: rule ", u128::from(rule)),
    }
}

/// Appends an address in dotted decimals with its port. The error is want of memory.
pub fn put_socket(out: &mut Vec<u8>, addr: u32, port: u16) -> Result<(), AllocError>
    ensures { OnOk result (out.new.items ≡ out.old.items ++ port_text addr port) }
{
    put_number(out, u128::from(addr / 16_777_216))?;
    put_counted(out, b".", u128::from(addr / 65_536 % 256))?;
    put_counted(out, b".", u128::from(addr / 256 % 256))?;
    put_counted(out, b".", u128::from(addr % 256))?;
    put_counted(out, b":", u128::from(port))
}

ghost use Rattle.std.specs.Prelude.{◌≡◌, ◌++◌, OnOk, Some, None};
ghost use Rattle.report_lines.specs.Views.{seen_call, seen_reply, seen_entry, seen_event};
ghost use Rattle.report_picture.specs.Known.{after as model_after};
ghost use Rattle.report_picture.specs.Rows as rules;
ghost use Rattle.ladder_picture.specs.declared.row.Note.TheVariants as notes;
ghost use Rattle.ladder_picture.specs.declared.row.Framed.TheVariants as framed_as;

use crate::known::Known;
use ladder_picture::{Asked, Fate, Frame, Framed, Note, Row, Timer, Told};
use report_lines::{CallLine, EntryLine, EventLine, ReplyLine};
use std::alloc::AllocError;
use tas_model::{FrameId, Head, Phase};

/// Whose frames an end's are: its host's number, and the opening number of its flow.
#[derive(Clone, Copy)]
pub struct Owner {
    pub host: u32,
    pub flow: u32,
}

/// What an application was told; `None` where it has to ask again.
fn told(reply: &ReplyLine<'_>) -> Option<Told>
    ensures { result ≡ rules.told (seen_reply reply.now) }
{
    match reply {
        ReplyLine::Ok => Some(Told::Ok),
        ReplyLine::Took { bytes } => Some(Told::Took { count: bytes.len() }),
        ReplyLine::Got { bytes, .. } => Some(Told::Got { count: bytes.len() }),
        ReplyLine::End => Some(Told::End),
        ReplyLine::NotYet => None,
        ReplyLine::NotOpen => Some(Told::NotOpen),
        ReplyLine::Shut => Some(Told::Shut),
        ReplyLine::Closed { reason } => Some(Told::Closed { reason: *reason }),
        _ => Some(Told::Done),
    }
}

/// What an application asked; `None` where the call is none of its.
fn asked(call: &CallLine<'_>) -> Option<Asked>
    ensures { result ≡ rules.asked (seen_call call.now) }
{
    match call {
        CallLine::Connect { .. } => Some(Asked::Connect),
        CallLine::Accept => Some(Asked::Accept),
        CallLine::Ready => Some(Asked::Ready),
        CallLine::Send { offered } => Some(Asked::Send { offered: *offered }),
        CallLine::Recv { most } => Some(Asked::Recv { most: *most }),
        CallLine::Shut => Some(Asked::Shut),
        CallLine::Close => Some(Asked::Close),
        CallLine::Abort => Some(Asked::Abort),
        _ => None,
    }
}

/// The timer that ran out.
fn timer(reply: &ReplyLine<'_>) -> Note
    ensures { result ≡ rules.timer (seen_reply reply.now) }
{
    match reply {
        ReplyLine::Resend => Note::Timer(Timer::Resend),
        ReplyLine::Probe => Note::Timer(Timer::Probe),
        ReplyLine::TimedOut => Note::Timer(Timer::TimedOut),
        ReplyLine::Expired => Note::Timer(Timer::Expired),
        _ => Note::Nothing,
    }
}

/// What is noted of an entry.
fn note(call: &CallLine<'_>, reply: &ReplyLine<'_>) -> Note
    ensures { result ≡ rules.note (seen_call call.now) (seen_reply reply.now) }
{
    match (asked(call), told(reply)) {
        (Some(asked), Some(told)) => Note::Call { asked, told },
        (Some(_), None) => Note::Nothing,
        (None, _) => timer(reply),
    }
}

/// The frame that came in an entry.
fn came(call: &CallLine<'_>) -> Option<Frame>
    ensures { result ≡ rules.came (seen_call call.now) }
{
    match call {
        CallLine::Passive { frame, seg, .. } | CallLine::Rx { frame, seg } => Some(Frame {
            id: *frame,
            head: seg.head,
            len: seg.bytes.len(),
        }),
        _ => None,
    }
}

/// The frame that was sent in an entry: the end's frame of this number.
fn sent(owner: Owner, number: u64, reply: &ReplyLine<'_>) -> Option<Frame>
    ensures { result ≡ rules.sent (rules.own owner number) (seen_reply reply.now) }
{
    let id = FrameId {
        host: owner.host,
        flow: owner.flow,
        number,
        copy: 0,
    };
    match reply {
        ReplyLine::Sent { seg } => Some(Frame {
            id,
            head: seg.head,
            len: seg.bytes.len(),
        }),
        ReplyLine::Got { update, .. } => sent_update(id, *update),
        _ => None,
    }
}

/// The frame of an update.
fn sent_update(id: FrameId, update: Option<Head>) -> Option<Frame>
    ensures { result ≡ rules.sent_update id update }
{
    let head = update?;
    Some(Frame { id, head, len: 0 })
}

/// The number of a state.
fn phase_number(phase: Phase) -> u8
    ensures { result ≡ rules.phase_number phase }
{
    match phase {
        Phase::SynSent => 0,
        Phase::SynReceived => 1,
        Phase::Established => 2,
        Phase::FinWait1 => 3,
        Phase::FinWait2 => 4,
        Phase::CloseWait => 5,
        Phase::Closing => 6,
        Phase::LastAck => 7,
        Phase::TimeWait => 8,
        Phase::Closed => 9,
    }
}

/// Whether these are one state.
fn is_phase(one: Phase, other: Phase) -> bool
    ensures { result ≡ rules.is_phase one other }
{
    phase_number(one) == phase_number(other)
}

/// The state after an entry, where it is another than before.
fn new_state(before: &Known, after: &Known) -> Option<Phase>
    ensures { result ≡ rules.new_state before.now after.now }
{
    if before.begun && is_phase(before.phase(), after.phase()) {
        return None;
    }
    Some(after.phase())
}

/// Whether something is noted.
fn is_noted(note: Note) -> bool
    ensures { result ≡ rules.is_noted note }
{
    match note {
        Note::Nothing => false,
        Note::Call { .. } | Note::Timer(_) => true,
    }
}

/// Appends the rows of an entry, of which there are two at most: a frame that came and the one that answers it have one
/// each. The error is want of memory.
pub fn push_rows(
    rows: &mut Vec<Row>,
    owner: Owner,
    known: &Known,
    entry: &EntryLine<'_>,
) -> Result<(), AllocError>
    ensures { OnOk result (rows.new.items ≡ rows.old.items ++ rules.rows_of owner known.now (seen_entry entry.now)) }
{
    let row = Row {
        tick: entry.tick,
        note: note(&entry.call, &entry.reply),
        state: new_state(known, &known.after(entry)),
        framed: Framed::Nothing,
    };
    let came = came(&entry.call);
    let sent = sent(owner, known.sent, &entry.reply);
    push_framed(rows, row, came, sent)
}

/// Appends a row with the frames that came and went.
fn push_framed(
    rows: &mut Vec<Row>,
    row: Row,
    came: Option<Frame>,
    sent: Option<Frame>,
) -> Result<(), AllocError>
    ensures { OnOk result (rows.new.items ≡ rows.old.items ++ rules.rows_by row.tick row.note row.state came sent) }
{
    match (came, sent) {
        (Some(came), Some(sent)) => {
            rows.push(framed(row, Framed::Came(came)))?;
            rows.push(answer(row.tick, sent))?;
            Ok(())
        }
        (Some(came), None) => {
            rows.push(framed(row, Framed::Came(came)))?;
            Ok(())
        }
        (None, Some(sent)) => {
            rows.push(framed(row, Framed::Sent(sent)))?;
            Ok(())
        }
        (None, None) => push_shown(rows, row),
    }
}

/// The row with what passes in it.
fn framed(row: Row, framed: Framed) -> Row
    ensures { result ≡ rules.row row.tick row.note row.state framed }
{
    Row { framed, ..row }
}

/// The row of a frame that answers.
fn answer(tick: u32, sent: Frame) -> Row
    ensures { result ≡ rules.row tick notes.Nothing None (framed_as.Sent sent) }
{
    Row {
        tick,
        note: Note::Nothing,
        state: None,
        framed: Framed::Sent(sent),
    }
}

/// Appends a row in which nothing passes, where it shows anything.
fn push_shown(rows: &mut Vec<Row>, row: Row) -> Result<(), AllocError>
    ensures { OnOk result (rows.new.items ≡ rows.old.items ++ rules.rows_by row.tick row.note row.state None None) }
{
    if !is_noted(row.note) && row.state.is_none() {
        return Ok(());
    }
    rows.push(framed(row, Framed::Nothing))?;
    Ok(())
}

/// The row of a line of a log, where it tells of a frame.
pub fn logged_row(tick: u32, event: &EventLine<'_>) -> Option<Row>
    ensures { result ≡ rules.logged_row tick (seen_event event.now) }
{
    match event {
        EventLine::Strayed { frame, .. } => Some(met(tick, *frame, Fate::Stray)),
        EventLine::Dropped { frame, backlog } => {
            Some(met(tick, *frame, Fate::Dropped { backlog: *backlog }))
        }
        EventLine::Refused { frame, rule } => Some(met(
            tick,
            *frame,
            Fate::Refused { rule: *rule },
        )),
        _ => None,
    }
}

/// The row of a frame that the connection had not.
fn met(tick: u32, id: FrameId, fate: Fate) -> Row
    ensures { result ≡ rules.met tick id fate }
{
    Row {
        tick,
        note: Note::Nothing,
        state: None,
        framed: Framed::Met { id, fate },
    }
}

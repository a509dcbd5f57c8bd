//! What an application is told of its flow, where an entry changed it.
ghost use Rattle.std.specs.Prelude.{◌≡◌};
ghost use Rattle.tas_model.specs.Endpoint.{Endpoint};
ghost use Rattle.tas_model.specs.Valid.{Valid};
ghost use Rattle.flow_state.specs.Stands.{Stands};
ghost use Rattle.core_worker.specs.News.{progress_of, news_between, note_where, notes_about};
ghost use Rattle.core_worker.specs.Posting.{ArePosted};

use context_queue::{ContextQueue, Note, SenderPass};
use flow_state::Parts;
use std::sync::Wait;
use tas_model::FlowId;

/// The kind of a note that there is more to read.
const READABLE: u8 = 1;

/// The kind of a note that there is more room to send.
const WRITABLE: u8 = 2;

/// The kind of a note that the flow is closed.
const CLOSED: u8 = 3;

/// How far a flow is, as far as its application can see.
#[derive(Clone, Copy, PartialEq, Eq, Debug)]
pub struct Progress {
    /// How many bytes were received in order.
    pub received: u128,
    /// Whether the peer ended its stream.
    pub ended: bool,
    /// Room for more bytes to send, in bytes.
    pub room: u32,
    pub closed: bool,
}

/// What an entry brought to a flow's application.
#[derive(Clone, Copy, PartialEq, Eq, Debug)]
pub struct News {
    /// Bytes came in order, or the peer's end.
    pub readable: bool,
    /// There is more room to send.
    pub writable: bool,
    /// The flow closed.
    pub closed: bool,
}

impl Progress {
    /// How far the flow of these parts is.
    pub fn of(parts: &Parts) -> Progress
        ensures { (e : Endpoint) → Valid e → Stands parts.now e → result ≡ progress_of e }
    {
        Progress {
            received: parts.rx.end(),
            ended: parts.is_ended(),
            room: parts.tx.room(),
            closed: parts.reason.is_some(),
        }
    }
}

impl News {
    /// What an entry brought, by the progress before and after it.
    pub fn between(before: Progress, after: Progress) -> News
        ensures { result ≡ news_between before after }
    {
        let has_more = before.received < after.received;
        News {
            readable: has_more || (!before.ended && after.ended),
            writable: before.room < after.room,
            closed: !before.closed && after.closed,
        }
    }

    /// Tells the news of a flow by a sender of its application's queue: a note for each kind, in their order. One that
    /// the queue has no room for is dropped.
    pub fn post<R: Wait>(self, rt: &R, queue: &ContextQueue, sender: &mut SenderPass, flow: FlowId)
        requires own { sender.old.line ≡ queue.now.line }
        ensures own { sender.new.line ≡ sender.old.line }
        ensures posted { ArePosted queue.now.room (notes_about flow self) sender.old sender.new }
    {
        post_where(rt, queue, sender, self.readable, READABLE, flow);
        post_where(rt, queue, sender, self.writable, WRITABLE, flow);
        post_where(rt, queue, sender, self.closed, CLOSED, flow);
    }
}

/// Posts a note of this kind, where there is such news.
fn post_where<R: Wait>(
    rt: &R,
    queue: &ContextQueue,
    sender: &mut SenderPass,
    wanted: bool,
    kind: u8,
    flow: FlowId,
)
    requires own { sender.old.line ≡ queue.now.line }
    ensures own { sender.new.line ≡ sender.old.line }
    ensures posted { ArePosted queue.now.room (note_where wanted kind flow) sender.old sender.new }
{
    if !wanted {
        return;
    }
    let note = Note {
        kind,
        slot: flow.slot,
        generation: flow.generation,
    };
    let _dropped = queue.post(rt, sender, note).is_err();
}

//! What became of a frame at the slow path.

use flow_lock::Word;
use tas_model::FlowId;

/// What became of a frame at the slow path.
#[derive(Clone, Copy, PartialEq, Eq, Debug)]
pub enum Served {
    /// The flow of its four-tuple received it, by one entry of its history.
    Entered(FlowId),
    /// It was a SYN for a listener, and opened this flow.
    Opened(FlowId),
    /// It was a SYN for a listener, and was dropped: for a full backlog where `backlog` is true, and else for want of a
    /// slot. A line of the log says so.
    Dropped { backlog: bool },
    /// It is of no flow and opened none. A line of the log has its answer.
    Stray,
    /// Its packet breaks the rule of reading with this number, from 1 to 9, and a line of the log says so.
    Refused(u8),
    /// Another pass held the flow's record: the word was found with its busy bit set. No entry was made.
    Busy(Word),
}

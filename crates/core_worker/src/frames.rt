//! A frame at a core, and what became of it.

use fast_rx::Why;
use flow_lock::Word;
use tas_model::{Bytes, FlowId, FrameId};

/// A frame that was handed to a core, with its packet as it came.
#[derive(Drop)]
pub struct Frame {
    pub id: FrameId,
    pub packet: Bytes,
}

/// What became of a frame at a core.
#[derive(Clone, Copy, PartialEq, Eq, Debug)]
pub enum Handled {
    /// This flow received it, by one entry of its history.
    Entered(FlowId),
    /// Its packet breaks the rule of reading with this number, from 1 to 9, and a line of the log says so.
    Refused(u8),
    /// It is left to the slow path, and no entry was made.
    Passed(Passed),
}

/// Why a frame was left to the slow path.
#[derive(Clone, Copy, PartialEq, Eq, Debug)]
pub enum Passed {
    /// The index names no flow of the table for its four-tuple, or the record of that flow bears another one.
    Absent,
    /// The word of the flow's slot was found not live, doomed or of another generation.
    Stale(Word),
    /// Another pass held the flow's record: the word was found with its busy bit set.
    Busy(Word),
    /// The word was seen, and a different one was found at the step that was to pin the flow.
    Moved(Word, Word),
    /// The fast path doesn't take it, for this reason.
    Fast(Why),
}

/// A frame that was left to the slow path, and why.
#[derive(Drop)]
pub struct PassedFrame {
    pub frame: Frame,
    pub passed: Passed,
}

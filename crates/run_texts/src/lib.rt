//! The texts of a run: its report, and the capture of the frames that it sent, written to a sink.
#![tactic(auto)]

mod buffer;
mod counted_lines;
mod digit_count;
mod entries;
mod flows;
mod frame_ids;
mod frames;
mod hex_digits;
mod laws;
mod line_texts;
mod logs;
mod quiet_lines;
mod record_lines;
mod stretches;
mod summary;
mod text;
mod texts;
mod whole;
mod writer;

pub use flows::write_flow;
pub use frames::{
    Frame, HostFrames, SentFrames, answer_in, segment_in, write_capture_header, write_frames,
};
pub use laws::segments_have_room;
pub use logs::write_log;
pub use summary::{Summary, write_summary_lines};
pub use whole::{Counts, write_counts, write_end, write_host, write_title};
pub use writer::Writer;

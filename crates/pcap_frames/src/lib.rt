//! Captures: classic pcap files, read and written (draft-ietf-opsawg-pcap).
#![tactic(auto)]

mod capture;
mod laws;
mod numbers;
mod reading;
mod writing;

pub use capture::{CaptureHeader, PcapRefused, RecordView};
pub use laws::{
    captures_are_headers_and_records, records_are_found_in_order, what_is_written_is_read,
};
pub use reading::{next_record, packet, read_header};
pub use writing::{write_header, write_record_head};

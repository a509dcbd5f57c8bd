//! A TCP segment in an IPv4 packet, its fields read from bytes.
#![tactic(auto)]

mod bytes;
mod laws;
mod reading;
mod segment;
mod writing;

pub use laws::{texts_spell_fields, what_is_written_is_read};
pub use reading::{read, wrong_sum};
pub use segment::{Flags, Refused, Segment};
pub use writing::{NoRoom, write};

//! What the records of a capture are for the one host that a replay plays: frames that come to it, segments that it
//! sent itself, and in which batches they come.
#![tactic(auto)]

mod batch;
mod counts;
mod found;
mod item;
mod laws;
mod marks;
mod reader;
mod starts;

pub use batch::BatchReader;
pub use counts::{Counts, Tally, refused_among};
pub use found::{Found, InputFault, find_items};
pub use item::{Content, Item, is_same_tuple, read_item};
pub use laws::{no_items_have_no_batch, what_is_found_is_replayed};
pub use reader::ItemReader;
pub use starts::FlowStarts;

//! Sessions of a key-value server: a profile of memcached's text protocol over a store, whatever pieces the bytes of a
//! client come in.
#![tactic(auto)]

mod laws;
mod mode;
mod replies;
mod request;
mod session;
mod store;
mod taking;
mod words;

pub use laws::{answers_go_on, sessions_end_with_their_streams};
pub use session::{Session, answer_pieces};
pub use store::Store;

/// The most bytes of a line without its LF and a CR before it.
const LONGEST_LINE: usize = 512;
/// The most bytes of a key.
const LONGEST_KEY: usize = 250;
/// The most bytes of data that are stored at a key.
const MOST_DATA: u32 = 65_536;
/// The most keys that a store holds.
const MOST_KEYS: usize = 1_024;

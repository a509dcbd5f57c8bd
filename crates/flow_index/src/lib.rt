//! Which flow has a four-tuple: one writer, and readers beside it.
#![tactic(auto)]

mod change;
mod index;
mod order;
mod store;

pub use change::{Change, Found};
pub use index::{IndexReader, IndexWriter};

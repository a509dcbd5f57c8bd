//! Tests of what cores and applications share: flows, the index, steering and queues. This crate has tests alone.
#![tactic(auto)]

#[cfg(test)]
mod index_readers;
#[cfg(test)]
mod queue_notes;
#[cfg(test)]
mod shared_flows;
#[cfg(test)]
mod steering_groups;

//! Tests of crews of threads: that each job is worked on once a phase, that jobs of a phase are worked on at once, that
//! a thread which does not begin holds up nobody, and that every way out of a run ends its threads. This crate has
//! tests alone.
#![tactic(auto)]

#[cfg(test)]
mod at_once;
#[cfg(test)]
mod held;
#[cfg(test)]
mod phases;
#[cfg(test)]
mod task;

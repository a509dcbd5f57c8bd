//! Tests of what is read and written: numbers, packets, captures, links and digits. This crate has tests alone.
#![tactic(auto)]

#[cfg(test)]
mod buckets;
#[cfg(test)]
mod captures;
#[cfg(test)]
mod digits;
#[cfg(test)]
mod host_logs;
#[cfg(test)]
mod links;
#[cfg(test)]
mod numbers;
#[cfg(test)]
mod packets;
#[cfg(test)]
mod rings;

//! Tests of sockets, of applications that end, and of flows that threads share. This crate has tests alone.
#![tactic(auto)]

#[cfg(test)]
mod alone;
#[cfg(test)]
mod flows;
#[cfg(test)]
mod holding;
#[cfg(test)]
mod many;
#[cfg(test)]
mod reaped;
#[cfg(test)]
mod sockets;
#[cfg(test)]
mod threads;

//! Tests of a host put together, whose cores, slow path and applications run on one table. This crate has tests alone,
//! beside the types that its definitions speak of.
#![tactic(auto)]

#[cfg(test)]
mod asleep;
#[cfg(test)]
mod clients;
#[cfg(test)]
mod flows;
#[cfg(test)]
mod gates;
#[cfg(test)]
mod host;
pub mod hosts;
#[cfg(test)]
mod many;
#[cfg(test)]
mod opening;
#[cfg(test)]
mod packets;
#[cfg(test)]
mod polls;
#[cfg(test)]
mod starting;
#[cfg(test)]
mod threads;
#[cfg(test)]
mod timers;
#[cfg(test)]
mod workers;

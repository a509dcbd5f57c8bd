//! Tests of phases: a core and an application work side by side on a flow that they share. This crate has tests alone,
//! beside the types that its definitions speak of.
#![tactic(auto)]

#[cfg(test)]
mod again;
#[cfg(test)]
mod gates;
#[cfg(test)]
mod host;
pub mod hosts;
#[cfg(test)]
mod peer;
#[cfg(test)]
mod phases;
#[cfg(test)]
mod table;

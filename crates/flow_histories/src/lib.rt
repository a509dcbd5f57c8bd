//! Histories of one flow, call by call, with the engines of all paths. This crate has tests alone.
#![tactic(auto)]

#[cfg(test)]
mod lives;
#[cfg(test)]
mod opening;

//! Texts of scenarios, read, refused and printed. This crate has tests alone.
#![tactic(auto)]

#[cfg(test)]
mod tests;

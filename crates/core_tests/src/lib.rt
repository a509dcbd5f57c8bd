//! Tests of runs on cores: that cores take frames at once, and that each group's frames go to its core.
#![tactic(auto)]

#[cfg(test)]
mod gates;

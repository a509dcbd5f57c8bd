//! Tests of the top call: that words with cores start them, side by side, and that words without start none.
#![tactic(auto)]

#[cfg(test)]
mod points;
#[cfg(test)]
mod watch;

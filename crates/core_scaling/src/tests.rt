//! Loads with changes that were worked out by hand.

use crate::{Change, Scaler};
use std::test::*;

/// Each load in turn asks for its change.
#[test]
fn cores_are_added_and_removed_by_the_load(rt: HostRuntime) {
    let mut scaler = Scaler::new(4, 2, 4);
    assert_eq!(rt; scaler.decide(5), Change::Add);
    assert_eq!(rt; scaler.decide(9), Change::Add);
    assert_eq!(rt; scaler.decide(8), Change::Keep);
    assert_eq!(rt; scaler.decide(3), Change::Remove);
    assert_eq!(rt; scaler.decide(1), Change::Remove);
    assert_eq!(rt; scaler.decide(1), Change::Keep);
    assert_eq!(rt; scaler.live(), 1);
}

/// No load makes more cores live than there are, or none.
#[test]
fn live_cores_stay_within_their_bounds(rt: HostRuntime) {
    let mut scaler = Scaler::new(2, 1, 2);
    for frames in [u32::MAX, u32::MAX, u32::MAX, 0, 0, 0] {
        scaler.decide(frames);
        assert!(rt; scaler.live() >= 1 && scaler.live() <= 2);
    }
    assert_eq!(rt; scaler.live(), 1);
}

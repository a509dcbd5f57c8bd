//! A core is held in the middle of its turn while an application calls on the same flow.
use crate::again::{REFUSED, TAKEN, both_phases};
use crate::phases::outcome;
use std::hint::spin_loop;
use std::process::Abort;
use std::sync::atomic::{AtomicBool, AtomicU32, Ordering};
use std::test::*;
use tas_num::Gate;

/// How many turns a core waits at most.
const TURNS: u32 = 10_000_000;

/// The points of core 0 on host 1: before its frame, and after it.
const BEFORE: u32 = 64;

const AFTER: u32 = 65;

/// The point that an application of this host passes after its call.
const CALLED: u32 = 127;

/// Holds who comes to one point until the application has made its call, in each phase anew.
#[derive(Drop)]
struct Hold {
    held: u32,
    holds: AtomicU32,
    calls: AtomicU32,
    ran_out: AtomicBool,
}

impl Hold {
    fn new(held: u32) -> Hold {
        Hold {
            held,
            holds: AtomicU32::new(0),
            calls: AtomicU32::new(0),
            ran_out: AtomicBool::new(false),
        }
    }

    /// Waits until as many calls were made as somebody was held.
    fn wait(&self) {
        let before = self.holds.fetch_add(1, Ordering::SeqCst);
        for _ in 0..TURNS {
            if self.calls.load(Ordering::SeqCst) > before {
                return;
            }
            spin_loop();
        }
        self.ran_out.store(true, Ordering::SeqCst);
    }

    /// Whether somebody was held, and let go by the application's call each time.
    fn is_met(&self) -> bool {
        self.holds.load(Ordering::SeqCst) > 0 && !self.ran_out.load(Ordering::SeqCst)
    }
}

impl Gate for Hold {
    fn pass(&self, point: u32) {
        if point == CALLED {
            self.calls.fetch_add(1, Ordering::SeqCst);
        }
        if point == self.held {
            self.wait();
        }
    }
}

/// The core is before its frame while the application calls: the word is taken, and then the frame.
#[test]
fn a_core_waits_before_its_frame_while_an_application_calls(rt: HostRuntime) -> Result<(), Fail> {
    let gate = Hold::new(BEFORE);
    let seen = outcome(&rt, &gate, rt.alloc(), 1);
    assert_eq!(rt; seen, Some(TAKEN));
    assert!(rt; gate.is_met());
    Ok(())
}

/// The core is before its frame while the application's call on that flow is answered Busy, as the slow path has the
/// record: no entry is made. It is tried again in the next phase.
#[test]
fn a_busy_call_is_tried_again_while_a_core_waits(rt: HostRuntime) -> Result<(), Fail> {
    let gate = Hold::new(BEFORE);
    let Some(tried) = both_phases(&rt, &gate, rt.alloc(), 1) else {
        panic!(rt; "there was no phase")
    };
    assert_eq!(rt; (tried.first, tried.entries), (REFUSED, [3, 3, 5]));
    assert_eq!(rt; tried.second, TAKEN);
    assert!(rt; gate.is_met());
    Ok(())
}

/// The core has put its frame off and is held in its turn, while the application's call on the flow is answered Busy.
#[test]
fn an_application_is_answered_busy_while_a_core_is_in_its_turn(
    rt: HostRuntime,
) -> Result<(), Fail> {
    let gate = Hold::new(AFTER);
    let Some(tried) = both_phases(&rt, &gate, rt.alloc(), 1) else {
        panic!(rt; "there was no phase")
    };
    assert_eq!(rt; tried.first, REFUSED);
    assert!(rt; gate.is_met());
    Ok(())
}

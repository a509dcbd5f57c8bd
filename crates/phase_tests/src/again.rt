//! A phase while the slow path holds the record, and one more once it has given it back.
ghost use Rattle.std.specs.Prelude.{⊤, ◌≡◌, ◌<◌, IfSome, IsTrue, length};
ghost use Rattle.host_rounds.specs.Lists.{Each};
ghost use Rattle.phase_tests.specs.Hosts.{AreBetween, AreReady, IsBetween, IsCoreOf, IsPlayedHost, IsReadyHost};
ghost use Rattle.phase_tests.specs.Hosts.{IsReadyLane};

use crate::host::{WORD, built};
use crate::hosts::Host;
use crate::phases::{Seen, played};
use core_phase::{Attempt, CoreLane, Lane, with_lanes};
use core_worker::Shared;
use crew::{Crew, Run};
use flow_index::IndexWriter;
use std::alloc::Global;
use std::process::Abort;
use std::sync::Wait;
use std::test::*;
use std::thread::Threads;
use tas_num::{Gate, NoGate};

/// What became of both phases, and how many entries the flow's history had before them, between them and in the end.
#[derive(Clone, Copy, Debug, PartialEq, Drop)]
pub struct Tried {
    pub first: Seen,
    pub second: Seen,
    pub entries: [usize; 3],
}

/// The frame was put off, and the word was refused.
pub const REFUSED: Seen = Seen {
    is_taken: false,
    is_busy: true,
    deferred: 1,
    exceptions: 0,
};

/// The frame was entered, and the word was taken.
pub const TAKEN: Seen = Seen {
    is_taken: true,
    is_busy: false,
    deferred: 0,
    exceptions: 0,
};

/// Both phases on a host of its own.
#[derive(Drop)]
struct Twice {
    alloc: Global,
}

impl Run<Lane> for Twice {
    type Answer = Option<Tried>;

    ghost can = { λ _. ⊤ };

    ghost gives = { λ _ _ _. ⊤ };

    fn run<R: Threads + Wait + Sync, G: Gate + Sync>(
        self,
        rt: &R,
        gate: &G,
        crew: &mut Crew<Lane>,
    ) -> Option<Tried> {
        let mut index = IndexWriter::new(self.alloc, 1).ok()?;
        let tried = two_phases(rt, gate, crew, self.alloc, &mut index);
        index.end(rt);
        tried
    }
}

fn two_phases<R: Wait, G: Gate>(
    rt: &R,
    gate: &G,
    crew: &mut Crew<Lane>,
    alloc: Global,
    index: &mut IndexWriter,
) -> Option<Tried>
    requires { 0 < index.old.left }
    ensures { crew.new ≡ crew.old }
{
    let mut host = built(rt, alloc, index)?;
    let (first, [before, between]) = held(rt, gate, crew, &mut host)?;
    if !try_again(alloc, &mut host) {
        return None;
    }
    let second = played(rt, gate, crew, &mut host)?;
    let end = counted(&mut host)?;
    Some(Tried {
        first,
        second,
        entries: [before, between, end],
    })
}

/// A phase while the slow path holds the record, and how many entries that has before it and after it.
fn held<R: Wait, G: Gate>(
    rt: &R,
    gate: &G,
    crew: &mut Crew<Lane>,
    host: &mut Host,
) -> Option<(Seen, [usize; 2])>
    requires { IsReadyHost host.old }
    ensures played { IfSome result (λ _. IsPlayedHost host.new) }
    ensures crew { crew.new ≡ crew.old }
{
    let Ok(flow) = host.shared.table.slow_take(&mut host.slow, &host.pin) else {
        return None;
    };
    let before = flow.entries();
    let seen = played(rt, gate, crew, host)?;
    let after = flow.entries();
    host.shared.table.slow_give(&mut host.slow, &host.pin, flow);
    Some((seen, [before, after]))
}

/// How many entries the flow has. The slow path keeps its record.
fn counted(host: &mut Host) -> Option<usize>
    requires { IsPlayedHost host.old }
{
    let flow = host.shared.table.slow_take(&mut host.slow, &host.pin).ok()?;
    Some(flow.entries())
}

/// The application tries its word again, and the core has the frame again that it put off. Whether there was memory.
fn try_again(alloc: Global, host: &mut Host) -> bool
    requires { IsPlayedHost host.old }
    ensures { IsTrue result → IsReadyHost host.new }
{
    have_all(alloc, &*host.shared, &mut host.lanes)
}

fn have_all(alloc: Global, common: &Shared, lanes: &mut Vec<Lane>) -> bool
    requires { AreBetween common.now lanes.old.items }
    ensures { IsTrue result → AreReady common.now lanes.new.items }
{
    are_tried_again(alloc, common, lanes.as_mut_slice())
}

/// What all these lanes try again. Whether there was memory.
fn are_tried_again(alloc: Global, common: &Shared, lanes: &mut [Lane]) -> bool
    requires { Each (IsBetween common.now) lanes.old }
    ensures ready { IsTrue result → Each (IsReadyLane common.now) lanes.new }
    ensures len { length lanes.new ≡ length lanes.old }
{
    let Some((lane, rest)) = lanes.split_first_mut() else {
        return true;
    };
    is_tried_again(alloc, common, lane) && are_tried_again(alloc, common, rest)
}

/// What the lane tries again. Whether there was memory.
fn is_tried_again(alloc: Global, common: &Shared, lane: &mut Lane) -> bool
    requires { IsBetween common.now lane.old }
    ensures { IsTrue result → IsReadyLane common.now lane.new }
{
    match lane {
        Lane::Core(core) => is_handed_again(common, core),
        Lane::App(app) => {
            let Ok(word) = Vec::from_array(alloc, *WORD) else {
                return false;
            };
            app.attempt = Attempt::Send(word);
            true
        }
    }
}

/// The core is handed the first frame that it put off. Whether there was memory.
fn is_handed_again(common: &Shared, lane: &mut CoreLane) -> bool
    requires { IsCoreOf common.now lane.old }
    ensures { IsCoreOf common.now lane.new }
{
    let Some(passed) = lane.worker.take_deferred() else {
        return true;
    };
    lane.worker
        .hand(passed.frame.id, passed.frame.packet)
        .is_ok()
}

/// What became of both phases on so many threads beside the caller's.
pub fn both_phases<R: Threads + Wait + Sync, G: Gate + Sync>(
    rt: &R,
    gate: &G,
    alloc: Global,
    threads: usize,
) -> Option<Tried> {
    with_lanes(rt, gate, alloc, threads, Twice { alloc }).ok()?
}

/// Where the slow path holds the record, the frame is put off and the word is refused, and neither makes an entry. Each
/// is tried again once it was given back, and makes one then.
#[test]
fn who_meets_a_held_record_tries_again(rt: HostRuntime) -> Result<(), Fail> {
    let Some(tried) = both_phases(&rt, &NoGate, rt.alloc(), 0) else {
        panic!(rt; "there was no phase")
    };
    assert_eq!(rt; tried.first, REFUSED);
    assert_eq!(rt; tried.second, TAKEN);
    assert_eq!(rt; tried.entries, [3, 3, 5]);
    Ok(())
}

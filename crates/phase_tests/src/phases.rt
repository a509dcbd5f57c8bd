//! Phases of a core and an application, on crews of several sizes.
ghost use Rattle.std.specs.Prelude.{⊤, ◌≡◌, ◌<◌, IfSome};
ghost use Rattle.flow_lock.specs.Steps.{IsAlone};
ghost use Rattle.phase_tests.specs.Hosts.{AreBetween, AreReady, HasPlayed, IsPlayedBy, MayPlay};

use crate::host::{WORD, built};
use crate::hosts::Host;
use core_phase::{Answered, Lane, play_phase, with_lanes};
use core_worker::Shared;
use crew::{Crew, Run};
use flow_index::IndexWriter;
use flow_lock::SlowPass;
use flow_state::FlowRecord;
use libtas_sockets::SocketError;
use std::alloc::Global;
use std::process::Abort;
use std::sync::Wait;
use std::test::*;
use std::thread::Threads;
use tas_num::{Gate, NoGate};

/// How often each is tried.
const TIMES: u32 = 10;

/// What became of a phase.
#[derive(Clone, Copy, Debug, PartialEq, Drop)]
pub struct Seen {
    /// Whether the application's word was taken, and whether it was told that another has the record.
    pub is_taken: bool,
    pub is_busy: bool,
    /// How many frames the core put off since another had the record, and left to the slow path for other reasons.
    pub deferred: usize,
    pub exceptions: usize,
}

/// One phase on a host of its own.
#[derive(Drop)]
struct Once {
    alloc: Global,
}

impl Run<Lane> for Once {
    type Answer = Option<Seen>;

    ghost can = { λ _. ⊤ };

    ghost gives = { λ _ _ _. ⊤ };

    fn run<R: Threads + Wait + Sync, G: Gate + Sync>(
        self,
        rt: &R,
        gate: &G,
        crew: &mut Crew<Lane>,
    ) -> Option<Seen> {
        let mut index = IndexWriter::new(self.alloc, 1).ok()?;
        let seen = one_phase(rt, gate, crew, self.alloc, &mut index);
        index.end(rt);
        seen
    }
}

fn one_phase<R: Wait, G: Gate>(
    rt: &R,
    gate: &G,
    crew: &mut Crew<Lane>,
    alloc: Global,
    index: &mut IndexWriter,
) -> Option<Seen>
    requires { 0 < index.old.left }
    ensures { crew.new ≡ crew.old }
{
    let mut host = built(rt, alloc, index)?;
    played(rt, gate, crew, &mut host)
}

/// A phase, and what became of it.
pub fn played<R: Wait, G: Gate>(
    rt: &R,
    gate: &G,
    crew: &mut Crew<Lane>,
    host: &mut Host,
) -> Option<Seen>
    requires { MayPlay host.old }
    ensures played { IfSome result (λ _. HasPlayed host.old host.new) }
    ensures crew { crew.new ≡ crew.old }
{
    let Some(()) = play(
        rt,
        gate,
        crew,
        &*host.shared,
        &mut host.slow,
        &mut host.lanes,
    ) else {
        return None;
    };
    Some(seen_of(host.lanes.as_slice()))
}

fn play<R: Wait, G: Gate>(
    rt: &R,
    gate: &G,
    crew: &mut Crew<Lane>,
    shared: &Shared,
    slow: &mut SlowPass<FlowRecord>,
    lanes: &mut Vec<Lane>,
) -> Option<()>
    requires slow { (slow.old.table ≡ shared.now.table) × IsAlone slow.old.view }
    requires lanes { AreReady shared.now lanes.old.items }
    ensures lanes { IfSome result (λ _. AreBetween shared.now lanes.new.items) }
    ensures slow { IfSome result (λ _. IsPlayedBy slow.old slow.new) }
    ensures crew { crew.new ≡ crew.old }
{
    let Ok(()) = play_phase(rt, gate, crew, shared, slow, lanes) else {
        return None;
    };
    Some(())
}

fn seen_of(lanes: &[Lane]) -> Seen {
    let mut seen = Seen {
        is_taken: false,
        is_busy: false,
        deferred: 0,
        exceptions: 0,
    };
    for lane in lanes.iter() {
        match lane {
            Lane::Core(core) => {
                seen.deferred = core.worker.deferred();
                seen.exceptions = core.worker.exceptions();
            }
            Lane::App(app) => {
                seen.is_taken = is_taken(&app.answer);
                seen.is_busy = is_busy(&app.answer);
            }
        }
    }
    seen
}

fn is_taken(answer: &Answered) -> bool {
    match answer {
        Answered::Sent(Ok(len)) => *len as usize == WORD.len(),
        _ => false,
    }
}

fn is_busy(answer: &Answered) -> bool {
    match answer {
        Answered::Sent(Err(SocketError::Busy(_))) => true,
        _ => false,
    }
}

/// What became of a phase on so many threads beside the caller's.
pub fn outcome<R: Threads + Wait + Sync, G: Gate + Sync>(
    rt: &R,
    gate: &G,
    alloc: Global,
    threads: usize,
) -> Option<Seen> {
    with_lanes(rt, gate, alloc, threads, Once { alloc }).ok()?
}

/// The frame is entered and the word taken, but for one of them that met the other at the record.
#[test]
fn a_core_and_an_application_share_a_flow(rt: HostRuntime) -> Result<(), Fail> {
    for threads in [0, 1, 3] {
        for _ in 0..TIMES {
            let Some(seen) = outcome(&rt, &NoGate, rt.alloc(), threads) else {
                panic!(rt; "there was no phase")
            };
            assert_eq!(rt; seen.exceptions, 0);
            assert!(rt; seen.is_taken != seen.is_busy);
            assert!(rt; seen.deferred == 0 || (seen.deferred == 1 && seen.is_taken));
        }
    }
    Ok(())
}

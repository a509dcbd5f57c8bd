//! A place at which one thread hands jobs to another, one at a time, and gets each back once it is done.
ghost use Rattle.std.specs.Prelude.{◌≡◌, ◌<◌, IfOk, IfSome, OnSome, IsTrue, Some, None, true};
ghost use Rattle.atomic_table.specs.Seated.{TableId};
ghost use Rattle.crew.specs.Desks.{IsAtRest, IsIdle, IsOut, IsStillOut, IsStopped};
ghost use Rattle.crew.specs.Desks.{IsAway, IsFree, IsAtWork, IsGone, IsFound};

use crate::handover::{
    Arrive, Ask, Claim, Clear, HandBack, HandOut, Handover, Look, Part, Recall, Stop, TakeBack,
    View,
};
use crate::job::Job;
use atomic_table::{Seat, Table};
use std::alloc::{AllocError, Global};
use std::hint::spin_loop;
use std::marker::Model;
use std::sync::Wait;
use std::sync::atomic::{AtomicBool, Ordering};
use tas_num::Gate;

/// The word that says how things stand, by one of these.
const STATE: usize = 0;

/// Nothing waits: at first, and where a job was taken back.
const NOTHING: u64 = 0;

/// A job waits. Whoever makes this another number has the job.
const JOB: u64 = 1;

const DONE: u64 = 2;

const STOP: u64 = 3;

/// A job is worked on.
const WORK: u64 = 4;

/// The word that says whether a thread is behind the desk: 0 at first, and then this.
const MANNED: usize = 1;

const THERE: u64 = 1;

/// How often a thread looks before it sleeps: somewhat longer than the system takes to wake one that sleeps, since a
/// look takes some 50 ns, and a wake 34 to 50 µs until the thread runs.
const LOOKS: u32 = 1_500;

/// How often the caller looks whether a thread begins its job, before it takes it back: far longer than a thread that
/// looks needs to see it, and shorter than a wake. A thread that wakes a moment later would find its job gone, and the
/// caller work on all jobs alone.
const PATIENCE: u32 = 200;

/// The point of the gate that a thread passes once it found a job, and before it begins it. Jobs have points of their
/// own.
pub const BEFORE_JOB: u32 = u32::MAX;

/// A desk. A contract sees its identity.
#[derive(Drop)]
pub struct Desk<W: Job + Drop> {
    table: Table<Option<W>, View<W>, (), Handover<W>, Global>,
    worker_sleeps: AtomicBool,
    dispatcher_sleeps: AtomicBool,
}

impl<W: Job + Drop> Model for Desk<W> {
    ghost Value = { TableId };

    ghost view = { λ d. d.table.shared.table_id };

    ghost invariant = { λ d. (d.table.shared.table_id.words ≡ 2) × (d.table.shared.table_id.slots ≡ 1) };
}

/// The side that hands jobs out.
#[derive(Drop)]
pub struct Dispatcher<W> {
    seat: Seat<Option<W>, View<W>>,
}

/// The side that works on them.
#[derive(Drop)]
pub struct Worker<W> {
    seat: Seat<Option<W>, View<W>>,
}

/// What a worker's look at its desk found.
#[derive(Drop)]
enum Found<W> {
    Job(W),
    /// Nothing, and this as the word's last bits.
    Nothing(u32),
    Stop,
}

impl<W: Job + Drop> Desk<W> {
    /// A desk with nothing on it, and its two sides.
    pub(crate) fn new(alloc: Global) -> Result<(Desk<W>, Dispatcher<W>, Worker<W>), AllocError>
        ensures dispatcher { IfOk result (λ d. IsAtRest d.0 d.1.seat) }
        ensures worker { IfOk result (λ d. IsAway d.0 d.2.seat) }
    {
        let (table, mut seat) = Table::vacant(alloc, &[0u64, 0], 1, &())?;
        table.shared.load::<Clear>(&mut seat, STATE);
        let worker = Worker {
            seat: table.shared.split_seat::<Part>(&mut seat),
        };
        let desk = Desk {
            table,
            worker_sleeps: AtomicBool::new(false),
            dispatcher_sleeps: AtomicBool::new(false),
        };
        Ok((desk, Dispatcher { seat }, worker))
    }

    /// Whether a thread is behind the desk. Once it was there, it is.
    pub(crate) fn is_manned(&self, dispatcher: &mut Dispatcher<W>) -> bool
        requires { IsAtRest self.now dispatcher.old.seat }
        ensures rests { IsAtRest self.now dispatcher.new.seat }
        ensures manned { IsTrue result → IsIdle self.now dispatcher.new.seat }
        ensures known { IsIdle self.now dispatcher.old.seat → IsTrue result }
    {
        self.table.shared.load::<Ask>(&mut dispatcher.seat, MANNED) == THERE
    }

    /// Hands a job out, and wakes nobody: that is `wake`'s.
    pub(crate) fn send(&self, dispatcher: &mut Dispatcher<W>, job: W)
        requires idle { IsIdle self.now dispatcher.old.seat }
        requires can { W.can job }
        ensures { IsOut self.now job dispatcher.new.seat }
    {
        let shared = &self.table.shared;
        drop(shared.exchange(&mut dispatcher.seat, 0, Some(job)));
        shared.swap::<HandOut>(&mut dispatcher.seat, STATE, JOB);
    }

    /// Wakes the thread behind the desk, where it sleeps. One that is about to sleep says so first, and then looks at
    /// the word once more: so after a job was handed out either this finds that it sleeps, or it finds the job.
    pub(crate) fn wake(&self) {
        if self.worker_sleeps.load(Ordering::SeqCst) {
            self.table.shared.wake_one(STATE);
        }
    }

    /// Says that no more jobs come.
    pub(crate) fn stop(&self, dispatcher: &mut Dispatcher<W>)
        requires { IsAtRest self.now dispatcher.old.seat }
        ensures { IsStopped self.now dispatcher.new.seat }
    {
        let shared = &self.table.shared;
        shared.swap::<Stop>(&mut dispatcher.seat, STATE, STOP);
        shared.wake_one(STATE);
    }

    /// The job that is out, as it was handed out, where its thread does not begin it in a little time. Nobody begins it
    /// any more then.
    pub(crate) fn recall(&self, dispatcher: &mut Dispatcher<W>) -> Option<W>
        requires { (x : W) × IsOut self.now x dispatcher.old.seat }
        ensures job { IfSome result (λ y. (x : W) → IsOut self.now x dispatcher.old.seat → y ≡ x) }
        ensures idle { OnSome result (IsIdle self.now dispatcher.new.seat) }
        ensures none { result ≡ None → IsStillOut self.now dispatcher.old.seat dispatcher.new.seat }
    {
        self.await_begin();
        let shared = &self.table.shared;
        if shared.compare_exchange::<Recall>(&mut dispatcher.seat, STATE, JOB, NOTHING) != JOB {
            return None;
        }
        let Some(job) = shared.exchange(&mut dispatcher.seat, 0, None) else {
            unreachable!()
        };
        Some(job)
    }

    /// Gives the thread a little time to begin the job that is out.
    fn await_begin(&self) {
        for _ in 0..PATIENCE {
            if self.table.shared.peek(STATE) != JOB {
                return;
            }
            spin_loop();
        }
    }

    /// Waits until the job that is out is done, and takes it back.
    pub(crate) fn receive<R: Wait>(&self, rt: &R, dispatcher: &mut Dispatcher<W>) -> W
        requires { (x : W) × IsOut self.now x dispatcher.old.seat }
        ensures made { (x : W) → IsOut self.now x dispatcher.old.seat → W.made x result }
        ensures idle { IsIdle self.now dispatcher.new.seat }
    {
        let mut looks = 0;
        for _ in rt.forever() {
            if let Some(job) = self.take_back(dispatcher) {
                return job;
            }
            looks = self.rest(rt, &self.dispatcher_sleeps, looks, WORK as u32);
        }
        unreachable!()
    }

    /// The job that is out, where it is done.
    fn take_back(&self, dispatcher: &mut Dispatcher<W>) -> Option<W>
        requires { (x : W) × IsOut self.now x dispatcher.old.seat }
        ensures made { IfSome result (λ y. (x : W) → IsOut self.now x dispatcher.old.seat → W.made x y) }
        ensures idle { OnSome result (IsIdle self.now dispatcher.new.seat) }
        ensures none { result ≡ None → IsStillOut self.now dispatcher.old.seat dispatcher.new.seat }
    {
        let shared = &self.table.shared;
        if shared.load::<TakeBack>(&mut dispatcher.seat, STATE) != DONE {
            return None;
        }
        let Some(job) = shared.exchange(&mut dispatcher.seat, 0, None) else {
            unreachable!()
        };
        Some(job)
    }

    /// Waits a little: who calls may look again at once, or this sleeps while the word's last bits are these. A thread
    /// that was woken looks as often again, also where it came too late for its job: the next one may follow soon.
    fn rest<R: Wait>(&self, rt: &R, sleeps: &AtomicBool, looks: u32, word: u32) -> u32 {
        if looks < LOOKS {
            spin_loop();
            return looks + 1;
        }
        sleeps.store(true, Ordering::SeqCst);
        self.table.shared.park(rt, STATE, word);
        sleeps.store(false, Ordering::SeqCst);
        0
    }

    /// Works on each job that is handed out, until no more come.
    pub(crate) fn serve<R: Wait, G: Gate>(&self, rt: &R, gate: &G, worker: &mut Worker<W>)
        requires { IsAway self.now worker.old.seat }
        ensures { IsGone self.now worker.new.seat }
    {
        self.table
            .shared
            .swap::<Arrive>(&mut worker.seat, MANNED, THERE);
        let mut looks = 0;
        for _ in rt.forever() {
            match self.look(gate, worker) {
                Found::Stop => return,
                Found::Job(job) => {
                    looks = 0;
                    self.work_on(rt, gate, worker, job);
                }
                Found::Nothing(word) => looks = self.rest(rt, &self.worker_sleeps, looks, word),
            }
        }
        unreachable!()
    }

    /// Begins the job that was handed out, where there is one.
    fn look<G: Gate>(&self, gate: &G, worker: &mut Worker<W>) -> Found<W>
        requires { IsFree self.now worker.old.seat }
        ensures { IsFound W.can self.now worker.new.seat result }
    {
        let shared = &self.table.shared;
        let word = shared.load::<Look>(&mut worker.seat, STATE);
        if word == STOP {
            return Found::Stop;
        }
        if word != JOB {
            return Found::Nothing((word % 4) as u32);
        }
        gate.pass(BEFORE_JOB);
        if shared.compare_exchange::<Claim>(&mut worker.seat, STATE, JOB, WORK) != JOB {
            // It was taken back, which left this, and whatever came since is found by the next look.
            return Found::Nothing(NOTHING as u32);
        }
        let Some(job) = shared.exchange(&mut worker.seat, 0, None) else {
            unreachable!()
        };
        Found::Job(job)
    }

    /// Works on a job, and hands it back.
    fn work_on<R: Wait, G: Gate>(&self, rt: &R, gate: &G, worker: &mut Worker<W>, job: W)
        requires can { W.can job }
        requires work { IsAtWork self.now job worker.old.seat }
        ensures { IsFree self.now worker.new.seat }
    {
        let mut job = job;
        job.work(rt, gate);
        let shared = &self.table.shared;
        drop(shared.exchange(&mut worker.seat, 0, Some(job)));
        shared.swap::<HandBack>(&mut worker.seat, STATE, DONE);
        if self.dispatcher_sleeps.load(Ordering::SeqCst) {
            shared.wake_one(STATE);
        }
    }
}

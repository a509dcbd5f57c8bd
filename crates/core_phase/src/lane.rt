//! What one thread works on in a phase.
ghost use Rattle.std.specs.Prelude.{◌≡◌, ◌<◌, false};
ghost use Rattle.std.specs.Arc.{arc_value};
ghost use Rattle.core_phase.specs.Lanes.{IsReadyCore, HasPlayedCore, IsReadyApp, HasPlayedApp};
ghost use Rattle.core_phase.specs.Attempts.{MayTry};

use crate::attempt::{Answered, Attempt, make};
use core_worker::{CoreWorker, Shared};
use crew::{Job, Weighed};
use libtas_sockets::{App, Socket};
use std::alloc::Global;
use std::sync::{Arc, Wait};
use tas_num::Gate;

/// A core's worker, and whether memory was wanting in its turn.
#[derive(Drop)]
pub struct CoreLane {
    /// What the workers of its host share.
    pub shared: Arc<Shared, Global>,
    pub worker: CoreWorker,
    pub tick: u32,
    /// Whether memory was wanting in the turn of the last phase.
    pub failed: bool,
}

impl CoreLane {
    /// The worker takes its turn.
    fn play<R: Wait, G: Gate>(&mut self, rt: &R, gate: &G)
        requires { IsReadyCore (arc_value self.old.shared) self.old.worker }
        ensures { HasPlayedCore self.old self.new }
    {
        let turn = self.worker.turn(rt, &*self.shared, self.tick, gate);
        self.failed = turn.is_err();
    }
}

/// An application, what it tries, and what it was answered.
#[derive(Drop)]
pub struct AppLane {
    /// What the workers of its host share.
    pub shared: Arc<Shared, Global>,
    pub app: App,
    /// The host's place in the scenario, below 67,108,863.
    pub host: u32,
    pub tick: u32,
    pub socket: Socket,
    pub attempt: Attempt,
    /// The answer of the last phase.
    pub answer: Answered,
}

impl AppLane {
    /// The application makes its call. The gate's point 64 h + 62 is passed before it and the next one after it, on
    /// host h.
    fn play<G: Gate>(&mut self, gate: &G)
        requires ready { IsReadyApp (arc_value self.old.shared) self.old.app }
        requires host { self.old.host < 67108863 }
        requires may { MayTry self.old.app self.old.socket self.old.attempt }
        ensures { HasPlayedApp self.old self.new }
    {
        let point = 64 * self.host + 62;
        gate.pass(point);
        self.answer = make(
            &mut self.app,
            &self.shared.table,
            self.socket,
            self.tick,
            &mut self.attempt,
        );
        gate.pass(point + 1);
    }
}

/// How much a core has to do, beside a call of weight 16: its frames and kicks aren't counted, and where there is much
/// to do most of it is the cores'. So cores go to one thread each, as far as there are threads.
const CORE: usize = 65_536;

/// A core, or an application.
#[derive(Drop)]
pub enum Lane {
    Core(CoreLane),
    App(AppLane),
}

impl Job for Lane {
    ghost use Rattle.core_phase.specs.Lanes.{CanPlay, HasPlayed};

    ghost can = { CanPlay };

    ghost made = { HasPlayed };

    fn work<R: Wait, G: Gate>(&mut self, rt: &R, gate: &G) {
        match self {
            Lane::Core(lane) => lane.play(rt, gate),
            Lane::App(lane) => lane.play(gate),
        }
    }
}

impl Weighed for Lane {
    fn weight(&self) -> usize {
        match self {
            Lane::Core(_) => CORE,
            Lane::App(lane) => lane.attempt.weight(),
        }
    }
}

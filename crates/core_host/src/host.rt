//! A host of a run whose flows are shared.
ghost use Rattle.std.specs.Prelude.{◌≡◌, ◌<◌, ◌≤◌, ◌==◌, ℕ, true, [], length, position, IfOk};
ghost use Rattle.tas_model.specs.Valid.{InRange};
ghost use Rattle.host_rounds.specs.Lists.{Each};
ghost use Rattle.slow_worker.specs.declared.clock.Clock.TheVariants.{New};
ghost use Rattle.host_rounds.specs.Hosts.{is_listening};
ghost use Rattle.core_host.specs.Asking.{lane_in};
ghost use Rattle.core_host.specs.Sound.{IsStaffSound, IsUnasked, IsClear};
ghost use Rattle.core_host.specs.Staffing.{AreRising, new_host};
ghost use Rattle.core_host.specs.Views.{seen_by};

use crate::books::Books;
use crate::staffing::hire;
use core_phase::Lane;
use core_worker::Shared;
use shared_host::{Assembled, assemble};
use slow_worker::SlowWorker;
use std::alloc::{AllocError, Global};
use std::marker::Model;
use std::sync::{Arc, Wait};
use steering::SteerPass;
use tas_core::HostLog;
use tas_model::HostParams;

/// A host of a run, whose cores, slow path and applications share its flows. Between two steps of a tick nobody but the
/// slow path may act, and no record is out.
///
/// It is no `Drop`, since the slow path's worker is none.
pub struct CoreHost {
    pub(crate) alloc: Global,
    pub(crate) shared: Arc<Shared, Global>,
    pub(crate) slow: SlowWorker,
    /// By which frames are handed to cores.
    pub(crate) steer: SteerPass,
    pub(crate) cores: u32,
    /// The cores, by their numbers, and behind them the applications that run.
    pub(crate) lanes: Vec<Lane>,
    /// The numbers of the applications that run, in the order of their lanes.
    pub(crate) names: Vec<u32>,
    pub(crate) books: Books,
    /// What a call reads into: as many bytes as one may ask for.
    pub(crate) buffer: Vec<u8>,
    /// Buffers of attempts that sent or read, for the next ones.
    pub(crate) rooms: Vec<Vec<u8>>,
    /// How many frames were handed out and calls are tried since the last phase: whether that is work for threads.
    pub(crate) busy: usize,
}

impl Model for CoreHost {
    ghost use Rattle.core_host.specs.Views.{Staffed, staffed_in};

    ghost Value = { Staffed };

    ghost view = { staffed_in };
}

impl CoreHost {
    /// A host of these parameters, the one with this number in the run, with so many cores and these applications. It
    /// opened no flow. The error is want of memory.
    pub fn new<R: Wait>(
        rt: &R,
        alloc: Global,
        number: u32,
        params: HostParams,
        cores: u32,
        apps: &[u32],
    ) -> Result<CoreHost, AllocError>
        requires number { number < 67108863 }
        requires ranges { InRange params }
        requires cores { (0 < cores) × (cores ≤ 16) }
        requires apps { AreRising apps.now × (length apps.now ≤ 4000) }
        ensures seen { IfOk result (λ h. seen_by h ≡ new_host params) }
        ensures sound { IfOk result (λ h. IsStaffSound h) }
        ensures staff { IfOk result (λ h. (h.cores ≡ cores) × (h.names ≡ apps.now)) }
        ensures clear { IfOk result (λ h. Each IsClear h.lanes) }
        ensures unasked { IfOk result (λ h. Each IsUnasked h.lanes) }
        ensures time { IfOk result (λ h. h.host.slow.time ≡ New) }
        // Packets are read with their checksums.
        ensures checks { IfOk result (λ h. h.host.slow.check_sums ≡ true) }
        ensures filed { IfOk result (λ h. h.host.slow.filed ≡ []) }
    {
        let Assembled {
            shared,
            mut slow,
            steer,
            cores: workers,
        } = assemble(rt, alloc, number, params, cores)?;
        match hire(alloc, number, shared, &mut slow, workers, apps) {
            Ok(staff) => Ok(CoreHost {
                alloc,
                shared: staff.shared,
                slow,
                steer,
                cores,
                lanes: staff.lanes,
                names: staff.names,
                books: Books::new(alloc),
                buffer: staff.buffer,
                rooms: Vec::new(alloc),
                busy: 0,
            }),
            Err(error) => {
                drop(slow.end(rt));
                Err(error)
            }
        }
    }

    /// Its parameters.
    pub fn params(&self) -> &HostParams
        ensures { result.now ≡ (seen_by self.now).params }
    {
        self.slow.path.params()
    }

    /// How many flows it opened.
    pub fn flow_count(&self) -> usize
        ensures { result ≡ length (seen_by self.now).flows }
    {
        self.books.len()
    }

    /// Its log.
    pub fn log(&self) -> &HostLog
        ensures { result.now ≡ (seen_by self.now).log }
    {
        &self.slow.log
    }

    /// Whether an application listens on the port; in a replay all ports listen.
    pub fn is_listened(&self, port: u16) -> bool
        ensures { result ≡ is_listening (seen_by self.now) port }
    {
        self.slow.path.listening(port)
    }

    /// The place of the application's lane. `None`: it doesn't run.
    pub(crate) fn lane_of(&self, app: u32) -> Option<usize>
        ensures { result ≡ lane_in app self.now }
    {
        match place_in(&self.names, app) {
            Some(at) => Some(self.cores as usize + at),
            None => None,
        }
    }
}

/// The place of an application's number among these.
fn place_in(names: &Vec<u32>, app: u32) -> Option<usize>
    ensures { result ≡ position (λ (n : ℕ). n == app) names.now.items }
{
    names.iter().position(|name| *name == app)
}

//! Frames that cores left, or that were handed to none, are served by the slow path, alone.
ghost use Rattle.std.specs.Prelude.{◌≡◌, ◌<◌, ◌≤◌, ◌+◌, ◌++◌, true, drop, length, map, OnOk};
ghost use Rattle.core_host.specs.Handing.{coming, comings};
ghost use Rattle.core_host.specs.Serving.{cleared, IsServed, IsOneTaken, AreTaken};
ghost use Rattle.core_host.specs.Sound.{IsStaffSound};
ghost use Rattle.phase_orders.specs.Collecting.{all_passed, exceptions_of, deferred_of};
ghost use Rattle.slow_rounds.specs.Collecting.{IsLaneCollected, AreCollected};
ghost use Rattle.slow_worker.specs.Clocks.{HasRisen};
ghost use Rattle.slow_worker.specs.Kicking.{CanKick};
ghost use Rattle.slow_worker.specs.Serving.{IsServed as IsFrameServed};
ghost use Rattle.slow_worker.specs.Turns.{IsTurn, has_passed as is_passed};
ghost use Rattle.slow_worker.specs.Workers.{HasSenders, IsSound, setting_of, sight_of, with_sight, Worker};
ghost use Rattle.slow_worker.specs.declared.served.Served.{Served};
ghost use Rattle.sound_turns.specs.Serving.{syn_book};

use crate::books::{Books, Holder};
use crate::handing::Coming;
use crate::host::CoreHost;
use app_reaper::PinList;
use core_phase::Lane;
use core_worker::Shared;
use slow_handshake::NumberSource;
use slow_worker::SlowWorker;
use std::alloc::{AllocError, Global};
use std::sync::Wait;
use tas_model::Bytes;

/// Flows have numbers below this.
const MOST_FLOWS: usize = 4_294_967_295;

impl CoreHost {
    /// The slow path takes the frames that its cores left in a phase of this tick: those whose packets break a rule of
    /// reading, which are lines, then exceptions, and then those that another pass stood in the way of. A flow that a
    /// SYN opens has the first number that the source has for it. The error is want of memory.
    pub fn serve<R: Wait, N: NumberSource>(
        &mut self,
        rt: &R,
        numbers: &N,
        tick: u32,
    ) -> Result<(), AllocError>
        requires sound { IsStaffSound self.old }
        requires later { is_passed tick self.old.host.slow ≡ true }
        requires few { length self.old.host.books + length (all_passed self.old.lanes) < 4294967295 }
        ensures { OnOk result (IsServed (N.number numbers.now) tick self.old self.new) }
    {
        collect_all(&mut self.slow, &mut self.lanes)?;
        serve_left(
            rt,
            &*self.shared,
            &mut self.slow,
            &mut self.books,
            numbers,
            tick,
        )
    }

    /// Whether the frames that its cores left are few enough for [`CoreHost::serve`]: flows have numbers of 32 bits.
    pub fn can_serve(&self) -> bool
        ensures { result ≡ true → length self.now.host.books + length (all_passed self.now.lanes) < 4294967295 }
    {
        let left = passed_in(self.lanes.as_slice());
        left < MOST_FLOWS && self.books.len() < MOST_FLOWS - left
    }

    /// The slow path takes these frames, none of which was handed to a core, in their order. A flow that a SYN opens
    /// has the first number that the source has for it. The error is want of memory.
    pub fn serve_all<R: Wait, N: NumberSource>(
        &mut self,
        rt: &R,
        numbers: &N,
        tick: u32,
        frames: &[Coming<'_>],
    ) -> Result<(), AllocError>
        requires sound { IsStaffSound self.old }
        requires few { length self.old.host.books + length frames.now < 4294967295 }
        ensures { OnOk result (AreTaken (N.number numbers.now) tick (comings frames.now) self.old self.new) }
    {
        for frame in frames {
            self.serve_one(rt, numbers, tick, frame)?;
        }
        Ok(())
    }

    /// The slow path takes a frame. The error is want of memory.
    fn serve_one<R: Wait, N: NumberSource>(
        &mut self,
        rt: &R,
        numbers: &N,
        tick: u32,
        frame: &Coming<'_>,
    ) -> Result<(), AllocError>
        requires sound { IsStaffSound self.old }
        requires few { length self.old.host.books < 4294967295 }
        ensures { OnOk result (IsOneTaken (N.number numbers.now) tick (coming frame.now) self.old self.new) }
    {
        serve_frame(
            self.alloc,
            rt,
            &*self.shared,
            &mut self.slow,
            &mut self.books,
            numbers,
            tick,
            frame,
        )
    }
}

/// How many frames the cores of these lanes left, or as many as can be counted.
fn passed_in(lanes: &[Lane]) -> usize
    ensures { result < 18446744073709551615 → result ≡ length (all_passed lanes.now) }
{
    match lanes.split_first() {
        Some((lane, rest)) => passed_by(lane).saturating_add(passed_in(rest)),
        None => 0,
    }
}

/// How many frames the core of the lane left.
fn passed_by(lane: &Lane) -> usize
    ensures { result < 18446744073709551615
        → result ≡ length (exceptions_of lane.now) + length (deferred_of lane.now) }
{
    match lane {
        Lane::Core(core) => core
            .worker
            .exceptions()
            .saturating_add(core.worker.deferred()),
        Lane::App(_) => 0,
    }
}

/// The lines that cores wrote, and the frames that they left, go to the slow path. The error is want of memory.
fn collect_all(slow: &mut SlowWorker, lanes: &mut Vec<Lane>) -> Result<(), AllocError>
    ensures collected { OnOk result (AreCollected lanes.old.items slow.old slow.new) }
    ensures lanes { OnOk result (lanes.new.items ≡ map cleared lanes.old.items) }
    ensures rest { slow.new ≡ record slow.old {
      exceptions = slow.new.exceptions;
      deferred = slow.new.deferred;
      log = slow.new.log;
    } }
{
    collect_lanes(slow, lanes.as_mut_slice())
}

/// The lines and frames of these lanes go there.
fn collect_lanes(slow: &mut SlowWorker, lanes: &mut [Lane]) -> Result<(), AllocError>
    ensures collected { OnOk result (AreCollected lanes.old slow.old slow.new) }
    ensures lanes { OnOk result (lanes.new ≡ map cleared lanes.old) }
    ensures rest { slow.new ≡ record slow.old {
      exceptions = slow.new.exceptions;
      deferred = slow.new.deferred;
      log = slow.new.log;
    } }
{
    if let Some((lane, rest)) = lanes.split_first_mut() {
        collect_lane(slow, lane)?;
        collect_lanes(slow, rest)?;
    }
    Ok(())
}

fn collect_lane(slow: &mut SlowWorker, lane: &mut Lane) -> Result<(), AllocError>
    ensures collected { OnOk result (IsLaneCollected lane.old slow.old slow.new) }
    ensures lane { OnOk result (lane.new ≡ cleared lane.old) }
    ensures rest { slow.new ≡ record slow.old {
      exceptions = slow.new.exceptions;
      deferred = slow.new.deferred;
      log = slow.new.log;
    } }
{
    match lane {
        Lane::Core(core) => slow.collect(&mut core.worker),
        Lane::App(_) => Ok(()),
    }
}

/// A later turn of the slow path, after which each flow that it opened has a book. The error is want of memory.
fn serve_left<R: Wait, N: NumberSource>(
    rt: &R,
    shared: &Shared,
    slow: &mut SlowWorker,
    books: &mut Books,
    numbers: &N,
    tick: u32,
) -> Result<(), AllocError>
    requires sound { IsSound shared.now.table (sight_of slow.old) }
    requires risen { HasRisen tick slow.old.time }
    requires senders { HasSenders shared.now slow.old }
    requires kickers { CanKick shared.now slow.old.kickers }
    ensures senders { HasSenders shared.now slow.new }
    ensures kickers { CanKick shared.now slow.new.kickers }
    ensures turned { OnOk result (IsTurn (is_passed tick slow.old) (N.number numbers.now) shared.now tick slow.old
        slow.new) }
    ensures books { OnOk result (books.new
        ≡ books.old ++ map syn_book (drop (length slow.old.pins) slow.new.pins)) }
{
    let from = slow.pins.len();
    slow.turn(rt, shared, numbers, tick)?;
    open_all(books, &slow.pins, from)
}

/// The slow path takes a frame, after which a flow that it opened has a book. The error is want of memory.
fn serve_frame<R: Wait, N: NumberSource>(
    alloc: Global,
    rt: &R,
    shared: &Shared,
    slow: &mut SlowWorker,
    books: &mut Books,
    numbers: &N,
    tick: u32,
    frame: &Coming<'_>,
) -> Result<(), AllocError>
    requires sound { IsSound shared.now.table (sight_of slow.old) }
    requires senders { HasSenders shared.now slow.old }
    ensures senders { HasSenders shared.now slow.new }
    ensures served { OnOk result ((answer : Served) × IsFrameServed (setting_of (N.number numbers.now) shared.now tick
        slow.old) frame.now.id frame.now.packet.now (sight_of slow.old) (sight_of slow.new) answer) }
    ensures rest { slow.new ≡ with_sight (sight_of slow.new) slow.old }
    ensures books { OnOk result (books.new
        ≡ books.old ++ map syn_book (drop (length slow.old.pins) slow.new.pins)) }
{
    let packet = Bytes::copy(alloc, frame.packet)?;
    let from = slow.pins.len();
    slow.frame(rt, shared, numbers, tick, frame.id, &packet)?;
    open_all(books, &slow.pins, from)
}

/// The flows of the pins from this place on have books: SYNs opened them. The error is want of memory.
fn open_all(books: &mut Books, pins: &PinList, from: usize) -> Result<(), AllocError>
    ensures { OnOk result (books.new ≡ books.old ++ map syn_book (drop from pins.now.list)) }
{
    for at in from..pins.len() {
        books.open(pins.pin(at).id(), Holder::Waiting)?;
    }
    Ok(())
}

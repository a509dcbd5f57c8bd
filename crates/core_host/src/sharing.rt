//! What cores and applications do side by side: one phase of the lanes of all hosts.
ghost use Rattle.std.specs.Prelude.{◌≡◌, ◌≤◌, ◌+◌, ◌++◌, ℕ, [], true, List, All, length, map, take, drop, IfOk, OnOk};
ghost use Rattle.std.specs.List.{AllZip};
ghost use Rattle.host_rounds.specs.Lists.{Each};
ghost use Rattle.flow_lock.specs.Orders.{Order};
ghost use Rattle.flow_lock.specs.Plays.{IsOrdered, IsCounted};
ghost use Rattle.flow_lock.specs.Steps.{HasAll};
ghost use Rattle.flow_lock.specs.declared.view.View.{View};
ghost use Rattle.core_phase.specs.Lanes.{IsReady, IsIdle, MayPlay, CanPlay, HasPlayed, Works};
ghost use Rattle.core_phase.specs.Phases.{AreLent, AreBack, turns_in};
ghost use Rattle.core_phase.specs.declared.lane.Lane.{Lane};
ghost use Rattle.core_host.specs.Leaving.{leaver_of};
ghost use Rattle.core_host.specs.Sharing.{in_tick, all_in_tick, view_of, MayAllPlay, IsPlayed, lent_by, with_back};
ghost use Rattle.core_host.specs.Sharing.{IsReadyFor, IsBack};
ghost use Rattle.core_host.specs.Sound.{IsStaffSound};
ghost use Rattle.core_host.specs.Views.{Staffed};

use crate::host::CoreHost;
use crate::leaving::{Leaver, leave_all, leavers_of};
use core_phase::{Lane, collect_all, lanes_failed, lend_all, played_parts_are_phases};
use core_worker::Shared;
use crew::{Crew, Job};
use flow_lock::SlowPass;
use flow_state::FlowRecord;
use sound_phases::{phases_keep_it, phases_keep_the_count};
use std::alloc::AllocError;
use std::mem;
use std::sync::Wait;
use tas_num::Gate;

/// So many frames and calls in all are too few for threads where nobody watches: to hand them out takes longer than to
/// work on them.
const FEW: usize = 64;

/// The cores of these hosts take the frames that were handed to them and follow their kicks, and the applications make
/// the calls that they try, all side by side, on the crew's threads and the caller's; or on the caller's alone where
/// there is little to do. `lanes` is empty before and after: it has the lanes of all hosts meanwhile. The error is want
/// of memory, and the hosts are over then.
pub fn play_hosts<R: Wait, G: Gate>(
    rt: &R,
    gate: &G,
    crew: &mut Crew<Lane>,
    hosts: &mut [CoreHost],
    lanes: &mut Vec<Lane>,
    tick: u32,
) -> Result<(), AllocError>
    requires sound { Each IsStaffSound hosts.old }
    requires may { Each MayAllPlay hosts.old }
    requires empty { lanes.old.items ≡ [] }
    ensures played { OnOk result (AllZip (IsPlayed tick) hosts.old hosts.new) }
    ensures empty { OnOk result (lanes.new.items ≡ []) }
    ensures crew { crew.new ≡ crew.old }
{
    if is_little(gate, hosts) {
        return play_each(rt, gate, hosts, tick);
    }
    play_from(rt, gate, crew, hosts, lanes, tick)
}

/// Whether there is so little to do that the caller's thread does it, lane by lane.
fn is_little<G: Gate>(gate: &G, hosts: &[CoreHost]) -> bool {
    work_in(hosts) < FEW && !gate.is_watched()
}

/// How many frames were handed out, and calls are tried.
fn work_in(hosts: &[CoreHost]) -> usize {
    match hosts.split_first() {
        Some((host, rest)) => host.busy.saturating_add(work_in(rest)),
        None => 0,
    }
}

/// The hosts play one after the other, the lanes of each where they stand. The error is want of memory.
fn play_each<R: Wait, G: Gate>(
    rt: &R,
    gate: &G,
    hosts: &mut [CoreHost],
    tick: u32,
) -> Result<(), AllocError>
    requires sound { Each IsStaffSound hosts.old }
    requires may { Each MayAllPlay hosts.old }
    ensures { OnOk result (AllZip (IsPlayed tick) hosts.old hosts.new) }
{
    if let Some((host, rest)) = hosts.split_first_mut() {
        host.play_alone(rt, gate, tick)?;
        play_each(rt, gate, rest, tick)?;
    }
    Ok(())
}

/// The lanes of these hosts play beside those that were lent by others, and come back. The error is want of memory.
fn play_from<R: Wait, G: Gate>(
    rt: &R,
    gate: &G,
    crew: &mut Crew<Lane>,
    hosts: &mut [CoreHost],
    lanes: &mut Vec<Lane>,
    tick: u32,
) -> Result<(), AllocError>
    requires sound { Each IsStaffSound hosts.old }
    requires may { Each MayAllPlay hosts.old }
    requires can { Each CanPlay lanes.old.items }
    ensures played { OnOk result (AllZip (IsPlayed tick) hosts.old hosts.new) }
    ensures lanes { OnOk result (AllZip HasPlayed lanes.old.items lanes.new.items) }
    ensures works { OnOk result (Each Works lanes.new.items) }
    ensures crew { crew.new ≡ crew.old }
{
    let Some((host, rest)) = hosts.split_first_mut() else {
        return play_lanes(rt, gate, crew, lanes);
    };
    host_is_played();
    let at = lanes.len();
    let leavers = host.lend_lanes(lanes, tick)?;
    play_from(rt, gate, crew, rest, lanes, tick)?;
    host.take_lanes_back(lanes, at, leavers.as_slice())
}

/// All lanes work side by side. The error is want of memory in a core's turn.
fn play_lanes<R: Wait, G: Gate>(
    rt: &R,
    gate: &G,
    crew: &mut Crew<Lane>,
    lanes: &mut Vec<Lane>,
) -> Result<(), AllocError>
    requires can { Each CanPlay lanes.old.items }
    ensures lanes { OnOk result (AllZip HasPlayed lanes.old.items lanes.new.items) }
    ensures works { OnOk result (Each Works lanes.new.items) }
    ensures crew { crew.new ≡ crew.old }
{
    work_all(rt, gate, crew, lanes);
    if lanes_failed(lanes) {
        return Err(AllocError);
    }
    Ok(())
}

fn work_all<R: Wait, G: Gate>(rt: &R, gate: &G, crew: &mut Crew<Lane>, lanes: &mut Vec<Lane>)
    requires can { All CanPlay lanes.old.items }
    ensures lanes { AllZip HasPlayed lanes.old.items lanes.new.items }
    ensures crew { crew.new ≡ crew.old }
{
    crew.phase(rt, gate, lanes);
}

/// The lanes work one after the other. The error is want of memory in a core's turn.
fn play_here<R: Wait, G: Gate>(rt: &R, gate: &G, lanes: &mut Vec<Lane>) -> Result<(), AllocError>
    requires can { Each CanPlay lanes.old.items }
    ensures lanes { OnOk result (AllZip HasPlayed lanes.old.items lanes.new.items) }
    ensures works { OnOk result (Each Works lanes.new.items) }
{
    work_here(rt, gate, lanes);
    if lanes_failed(lanes) {
        return Err(AllocError);
    }
    Ok(())
}

/// The lanes work one after the other.
fn work_here<R: Wait, G: Gate>(rt: &R, gate: &G, lanes: &mut Vec<Lane>)
    requires can { All CanPlay lanes.old.items }
    ensures lanes { AllZip HasPlayed lanes.old.items lanes.new.items }
{
    work_each(rt, gate, lanes.as_mut_slice());
}

fn work_each<R: Wait, G: Gate>(rt: &R, gate: &G, lanes: &mut [Lane])
    requires can { All CanPlay lanes.old }
    ensures lanes { AllZip HasPlayed lanes.old lanes.new }
{
    if let Some((lane, rest)) = lanes.split_first_mut() {
        lane.work(rt, gate);
        work_each(rt, gate, rest);
    }
}

impl CoreHost {
    /// Its lanes take their turns of this tick one after the other, without those of other hosts. The error is want of
    /// memory.
    fn play_alone<R: Wait, G: Gate>(
        &mut self,
        rt: &R,
        gate: &G,
        tick: u32,
    ) -> Result<(), AllocError>
        requires sound { IsStaffSound self.old }
        requires may { MayAllPlay self.old }
        ensures { OnOk result (IsPlayed tick self.old self.new) }
    {
        host_is_played();
        let (mut own, leavers) = self.lend_own(tick)?;
        play_here(rt, gate, &mut own)?;
        self.take_own_back(own, leavers.as_slice());
        Ok(())
    }

    /// Each lane is given a turn of this tick, and is away then. The answer says too who of them tries to give a socket
    /// up. The error is want of memory.
    fn lend_own(&mut self, tick: u32) -> Result<(Vec<Lane>, Vec<Option<Leaver>>), AllocError>
        requires sound { IsStaffSound self.old }
        requires may { MayAllPlay self.old }
        ensures lent { IfOk result (λ out. AreLent (view_of self.old).made (all_in_tick tick self.old.lanes)
            out.0.items) }
        ensures leavers { IfOk result (λ out. out.1.items ≡ map leaver_of self.old.lanes) }
        ensures host { OnOk result (self.new ≡ lent_by (length (all_in_tick tick self.old.lanes)) self.old) }
    {
        let leavers = leavers_of(
            self.alloc,
            self.cores,
            self.names.as_slice(),
            self.lanes.as_slice(),
        )?;
        self.busy = 0;
        lend_all_in(&*self.shared, &mut self.slow.pass, &mut self.lanes, tick);
        let own = mem::replace(&mut self.lanes, Vec::new(self.alloc));
        Ok((own, leavers))
    }

    /// Its lanes come back with their turns, and it learns what was done in them.
    fn take_own_back(&mut self, own: Vec<Lane>, leavers: &[Option<Leaver>])
        requires { IsReadyFor own.items self.old }
        ensures { IsBack leavers.now own.items self.old self.new }
    {
        self.lanes = own;
        learn_all(&*self.shared, &mut self.slow.pass, &mut self.lanes);
        leave_all(&mut self.books, self.lanes.as_slice(), leavers);
    }

    /// Each lane is given a turn of this tick, and all go behind those of other hosts. The answer says who of them
    /// tries to give a socket up. The error is want of memory.
    fn lend_lanes(
        &mut self,
        lanes: &mut Vec<Lane>,
        tick: u32,
    ) -> Result<Vec<Option<Leaver>>, AllocError>
        requires sound { IsStaffSound self.old }
        requires may { MayAllPlay self.old }
        ensures lent { OnOk result ((own : List Lane) × (lanes.new.items ≡ lanes.old.items ++ own)
            × AreLent (view_of self.old).made (all_in_tick tick self.old.lanes) own) }
        ensures leavers { IfOk result (λ leavers. leavers.items ≡ map leaver_of self.old.lanes) }
        ensures host { OnOk result (self.new ≡ lent_by (length (all_in_tick tick self.old.lanes)) self.old) }
    {
        let (mut own, leavers) = self.lend_own(tick)?;
        lanes.append(&mut own)?;
        Ok(leavers)
    }

    /// The host's lanes, which stand from this place on, come back with their turns, and it learns what was done in
    /// them. The error is want of memory.
    fn take_lanes_back(
        &mut self,
        lanes: &mut Vec<Lane>,
        at: usize,
        leavers: &[Option<Leaver>],
    ) -> Result<(), AllocError>
        requires at { at ≤ length lanes.old.items }
        requires ready { IsReadyFor (drop at lanes.old.items) self.old }
        ensures lanes { OnOk result (lanes.new.items ≡ take at lanes.old.items) }
        ensures back { OnOk result (IsBack leavers.now (drop at lanes.old.items) self.old self.new) }
    {
        let own = lanes.split_off(at)?;
        self.take_own_back(own, leavers);
        Ok(())
    }
}

/// Each lane is given a turn of this tick.
fn lend_all_in(shared: &Shared, slow: &mut SlowPass<FlowRecord>, lanes: &mut Vec<Lane>, tick: u32)
    requires slow { (slow.old.table ≡ shared.now.table) × (slow.old.view.baton ≡ true) }
    requires idle { Each (IsIdle shared.now) lanes.old.items }
    ensures slow { slow.new ≡ record slow.old {
      view = record slow.old.view {
        made = slow.old.view.made + length (all_in_tick tick lanes.old.items);
      };
    } }
    ensures lent { AreLent slow.old.view.made (all_in_tick tick lanes.old.items) lanes.new.items }
{
    begin_in(lanes, tick);
    lend_in(shared, slow, lanes);
}

/// Each lane is given a turn.
fn lend_in(shared: &Shared, slow: &mut SlowPass<FlowRecord>, lanes: &mut Vec<Lane>)
    requires slow { (slow.old.table ≡ shared.now.table) × (slow.old.view.baton ≡ true) }
    requires idle { All (IsIdle shared.now) lanes.old.items }
    ensures slow { slow.new ≡ record slow.old {
      view = record slow.old.view { made = slow.old.view.made + length lanes.old.items };
    } }
    ensures lent { AreLent slow.old.view.made lanes.old.items lanes.new.items }
{
    lend_all(shared, slow, lanes.as_mut_slice());
}

/// The next turns of the lanes are of this tick.
fn begin_in(lanes: &mut Vec<Lane>, tick: u32)
    ensures { lanes.new.items ≡ all_in_tick tick lanes.old.items }
{
    begin_all(lanes.as_mut_slice(), tick);
}

fn begin_all(lanes: &mut [Lane], tick: u32)
    ensures { lanes.new ≡ all_in_tick tick lanes.old }
{
    if let Some((lane, rest)) = lanes.split_first_mut() {
        begin(lane, tick);
        begin_all(rest, tick);
    }
}

fn begin(lane: &mut Lane, tick: u32)
    ensures { lane.new ≡ in_tick tick lane.old }
{
    match lane {
        Lane::Core(core) => core.tick = tick,
        Lane::App(app) => app.tick = tick,
    }
}

/// All turns are given back, and the slow path learns what was done in them.
fn learn_all(shared: &Shared, slow: &mut SlowPass<FlowRecord>, lanes: &mut Vec<Lane>)
    requires slow { (slow.old.table ≡ shared.now.table) × (slow.old.view.baton ≡ true) }
    requires all { HasAll (record slow.old.view { turns = slow.old.view.turns ++ turns_in lanes.old.items }) }
    requires ready { Each (IsReady shared.now) lanes.old.items }
    ensures back { AreBack lanes.old.items lanes.new.items }
    ensures table { slow.new ≡ record slow.old { view = slow.new.view } }
    ensures order { (order : Order)
        × IsOrdered order (record slow.old.view { turns = slow.old.view.turns ++ turns_in lanes.old.items })
        slow.new.view }
    ensures words { IsCounted (record slow.old.view { turns = slow.old.view.turns ++ turns_in lanes.old.items })
        slow.new.view }
{
    collect_all(shared, slow, lanes.as_mut_slice());
    shared.table.learn(slow);
}

/// Where a host's lanes were lent, played and came back, none of them wanting memory, they may play, they may come
/// back, and the host was played.
fn host_is_played()
    ensures play { (t : ℕ) (h : Staffed) (own : List Lane) → IsStaffSound h → MayAllPlay h
        → AreLent (view_of h).made (all_in_tick t h.lanes) own → Each CanPlay own }
    ensures ready { (t : ℕ) (h : Staffed) (own ms : List Lane) → IsStaffSound h → MayAllPlay h
        → AreLent (view_of h).made (all_in_tick t h.lanes) own → AllZip HasPlayed own ms → Each Works ms
        → IsReadyFor ms (lent_by (length (all_in_tick t h.lanes)) h) }
    ensures played { (t : ℕ) (h k : Staffed) (own ms : List Lane) → IsStaffSound h → MayAllPlay h
        → AreLent (view_of h).made (all_in_tick t h.lanes) own → AllZip HasPlayed own ms → Each Works ms
        → IsBack (map leaver_of h.lanes) ms (lent_by (length (all_in_tick t h.lanes)) h) k → IsPlayed t h k }
{
    played_parts_are_phases();
    phases_keep_it();
    phases_keep_the_count();
}

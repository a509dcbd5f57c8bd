//! Which core each group of flows is on.

ghost use Rattle.std.specs.Prelude.{◌≡◌, ◌<◌, ◌≤◌, All, length, IfOk};
ghost use Rattle.steering.specs.Tables.{group_of as group_of_tuple};
ghost use Rattle.local_host.specs.Steered.{group_in};

use crate::arrival::{Arrival, Packet};
use std::alloc::{AllocError, Global};
use std::marker::Model;
use std::sync::Wait;
use steering::{SteerPass, Steering, group};

/// A group of flows goes to another core, by its number modulo the number of cores.
#[derive(Clone, Copy, Debug)]
pub struct GroupMove {
    /// Below 64.
    pub group: u32,
    pub core: u32,
}

/// The cores of a host, and which of them each group of its flows is on.
#[derive(Drop)]
pub struct Cores {
    /// The host's number.
    host: u32,
    count: u32,
    table: Steering,
    pass: SteerPass,
}

impl Model for Cores {
    ghost use Rattle.local_host.specs.Steered.{Steered, AreOwn};

    ghost Value = { Steered };

    ghost view = { λ c. record { host = c.host; count = c.count } };

    ghost invariant = { λ c. AreOwn c.host c.count c.table c.pass };
}

impl Cores {
    /// From 1 to 16 cores of the host with this number, with group g on core g modulo the cores. The error is want of
    /// memory.
    pub fn new(alloc: Global, host: u32, count: u32) -> Result<Cores, AllocError>
        requires host { host < 67108863 }
        requires count { (0 < count) × (count ≤ 16) }
        ensures { IfOk result (λ cores. cores ≡ record { host = host; count = count }) }
    {
        let (table, pass) = Steering::new(alloc, count)?;
        Ok(Cores {
            host,
            count,
            table,
            pass,
        })
    }

    /// How many cores there are, from 1 to 16.
    pub fn count(&self) -> u32
        ensures count { result ≡ self.now.count }
        ensures some { 0 < result }
        ensures most { result ≤ 16 }
    {
        self.count
    }

    /// The number of their host.
    pub fn host(&self) -> u32
        ensures host { result ≡ self.now.host }
        ensures low { result < 67108863 }
    {
        self.host
    }

    /// The core of each frame, in their order. A group moves once the first frame of it was handed to a core, or after
    /// all frames where there is none. The error is want of memory.
    pub fn steer<R: Wait>(
        &mut self,
        rt: &R,
        alloc: Global,
        arrivals: &[Arrival<'_>],
        moves: &[GroupMove],
    ) -> Result<Vec<u32>, AllocError>
        requires { All (λ (m : GroupMove). m.group < 64) moves.now }
        ensures len { IfOk result (λ steered. length steered.items ≡ length arrivals.now) }
        ensures below { IfOk result (λ steered. All (λ core. core < self.old.count) steered.items) }
        ensures same { self.new ≡ self.old }
    {
        let mut left = Vec::new(alloc);
        left.extend_from_slice(moves)?;
        let steered = self.steer_all(rt, alloc, arrivals, &mut left)?;
        for waiting in &left {
            self.move_group(rt, waiting);
        }
        Ok(steered)
    }

    /// The core of each frame, with the moves among these whose groups have one.
    fn steer_all<R: Wait>(
        &mut self,
        rt: &R,
        alloc: Global,
        arrivals: &[Arrival<'_>],
        left: &mut Vec<GroupMove>,
    ) -> Result<Vec<u32>, AllocError>
        requires { All (λ (m : GroupMove). m.group < 64) left.old.items }
        ensures left { All (λ (m : GroupMove). m.group < 64) left.new.items }
        ensures len { IfOk result (λ steered. length steered.items ≡ length arrivals.now) }
        ensures below { IfOk result (λ steered. All (λ core. core < self.old.count) steered.items) }
        ensures same { self.new ≡ self.old }
    {
        let mut steered = Vec::with_capacity(alloc, arrivals.len())?;
        for arrival in arrivals {
            let group = group_of(arrival);
            let core = self.table.core_of(rt, &mut self.pass, group);
            steered.push(core)?;
            self.move_now(rt, group, left);
        }
        Ok(steered)
    }

    /// The moves of this group are made, and wait no longer.
    fn move_now<R: Wait>(&mut self, rt: &R, group: u32, left: &mut Vec<GroupMove>)
        requires { All (λ (m : GroupMove). m.group < 64) left.old.items }
        ensures left { All (λ (m : GroupMove). m.group < 64) left.new.items }
        ensures same { self.new ≡ self.old }
    {
        for waiting in left.iter() {
            if waiting.group == group {
                self.move_group(rt, waiting);
            }
        }
        left.retain(|waiting| waiting.group != group);
    }

    fn move_group<R: Wait>(&mut self, rt: &R, moving: &GroupMove)
        requires { moving.now.group < 64 }
        ensures { self.new ≡ self.old }
    {
        let core = moving.core % self.count;
        self.table.assign(rt, &mut self.pass, moving.group, core);
    }
}

/// The group of a frame: that of its four-tuple, and 0 of a packet that breaks a rule of reading.
fn group_of(arrival: &Arrival<'_>) -> u32
    ensures group { result ≡ group_in arrival.now.packet }
    ensures below { result < 64 }
{
    match arrival.packet {
        Packet::Damaged(_) => 0,
        Packet::Segment(tuple, _) => group(&tuple),
    }
}

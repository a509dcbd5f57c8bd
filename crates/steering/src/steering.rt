//! Which core each group of flows is on.

ghost use Rattle.std.specs.Prelude.{◌≡◌, ◌<◌, ◌≤◌, [], ◌∷◌, IfOk, IsOk};
ghost use Rattle.steering.specs.Tables.{Begins, Assigned, IsCoreIn, first_table, group_of};

use crate::order::{Alike, Load, Order, Seen, Swap};
use crate::words::{core_at, move_group};
use crossbeam_utils::atomic::seq_cell::{Pass, RuledSeqCell};
use std::alloc::{AllocError, Global};
use std::marker::Model;
use std::sync::Wait;
use tas_model::FourTuple;

/// The group of a flow, below 64: the sum of both addresses and both ports, modulo 64.
/// All frames of a flow are of one group.
pub fn group(t: &FourTuple) -> u32
    ensures group { result ≡ group_of t.now }
    ensures below { result < 64 }
{
    let addresses = u64::from(t.laddr) + u64::from(t.raddr);
    let ports = u64::from(t.lport) + u64::from(t.rport);
    ((addresses + ports) % 64) as u32
}

/// The table of steering: the core of each of the 64 groups of flows.
/// Threads share it by `&`, each with a `SteerPass` of its own.
///
/// It is seen as its place: which steering it is, and the number of its cores.
/// What stands in it is known by passes alone, since any of them may change it.
#[derive(Drop)]
pub struct Steering {
    cores: u32,
    cell: RuledSeqCell<[u64; 4], Seen, Order, 4>,
}

impl Model for Steering {
    ghost use Rattle.std.specs.Prelude.{◌<◌, ◌≤◌};
    ghost use Rattle.steering.specs.Tables.{Place};

    ghost Value = { Place };

    ghost view = { λ s. record { cell = s.cell.table.shared.table_id; cores = s.cores } };

    ghost invariant = { λ s. (0 < s.cores) × (s.cores ≤ 16) };
}

/// What one user of a steering has seen of it. It is no lock: any number of them may be in use at once.
///
/// It is seen as the place of its steering and the tables that it has seen, in the order in which they came.
#[derive(Drop)]
pub struct SteerPass {
    cores: u32,
    pass: Pass<[u64; 4], Seen>,
}

impl Model for SteerPass {
    ghost use Rattle.std.specs.Prelude.{map};
    ghost use Rattle.crossbeam_utils.specs.Seq.{cell_view};
    ghost use Rattle.steering.specs.Tables.{Sight, sight};
    ghost use Rattle.steering.specs.Words.{table_of};

    ghost Value = { Sight };

    ghost view = { λ p. sight (p.pass.table_id) p.cores (map (table_of p.cores) (cell_view p.pass).words) };
}

impl Steering {
    /// A steering of 1 to 16 cores, with group g on core g modulo the cores, and its first pass, which has seen
    /// that table. The error is want of memory.
    pub fn new(alloc: Global, cores: u32) -> Result<(Steering, SteerPass), AllocError>
        requires cores { (0 < cores) × (cores ≤ 16) }
        ensures cores { IfOk result (λ made. made.0.cores ≡ cores) }
        ensures own { IfOk result (λ made. made.1.place ≡ made.0) }
        ensures first { IfOk result (λ made. made.1.tables ≡ first_table cores ∷ []) }
    {
        let (cell, pass) = RuledSeqCell::ruled(alloc, [0; 4])?;
        Ok((Steering { cores, cell }, SteerPass { cores, pass }))
    }

    /// Splits off a pass for a further user, which has seen as much. It takes no memory, and never fails.
    pub fn pass(&self, _alloc: Global, from: &mut SteerPass) -> Result<SteerPass, AllocError>
        requires own { from.old.place ≡ self.now }
        ensures made { IsOk result }
        ensures alike { IfOk result (λ pass. pass ≡ from.old) }
        ensures kept { from.new ≡ from.old }
    {
        let pass = self.cell.split_pass::<Alike>(&mut from.pass);
        Ok(SteerPass {
            cores: from.cores,
            pass,
        })
    }

    /// The core of a group below 64, in one whole table: the last of those that the pass has then seen.
    /// They begin with all that it had seen.
    pub fn core_of<R: Wait>(&self, rt: &R, p: &mut SteerPass, group: u32) -> u32
        requires own { p.old.place ≡ self.now }
        requires group { group < 64 }
        ensures own { p.new.place ≡ p.old.place }
        ensures seen { Begins p.old.tables p.new.tables }
        ensures core { IsCoreIn p.new.tables group result }
        ensures below { result < self.now.cores }
    {
        let words = self.cell.load_as::<Load, R>(rt, &mut p.pass);
        core_at(&words, group, self.cores)
    }

    /// Puts a group below 64 on a core below the number of cores, from then on.
    ///
    /// It takes one table and puts the changed one in its place, so two passes that assign at once may undo one
    /// another's change: let one of them assign.
    pub fn assign<R: Wait>(&self, rt: &R, p: &mut SteerPass, group: u32, core: u32)
        requires own { p.old.place ≡ self.now }
        requires group { group < 64 }
        requires core { core < self.now.cores }
        ensures own { p.new.place ≡ p.old.place }
        ensures assigned { Assigned group core p.old.tables p.new.tables }
    {
        let mut words = self.cell.load_as::<Load, R>(rt, &mut p.pass);
        move_group(&mut words, group, core, self.cores);
        self.cell.swap_as::<Swap, R>(rt, &mut p.pass, words);
    }
}

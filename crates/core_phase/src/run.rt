//! A run with threads for lanes.
ghost use Rattle.std.specs.Prelude.{IfOk};

use crate::lane::Lane;
use crew::{Run, with_crew};
use std::alloc::{AllocError, Global};
use std::sync::Wait;
use std::thread::Threads;
use tas_num::Gate;

/// Runs with so many threads beside the caller's, which work on lanes and end when it answered. The error is want of
/// memory.
pub fn with_lanes<R: Threads + Wait + Sync, G: Gate + Sync, X: Run<Lane> + Drop>(
    rt: &R,
    gate: &G,
    alloc: Global,
    threads: usize,
    run: X,
) -> Result<X::Answer, AllocError>
    requires { X.can run }
    ensures { IfOk result (X.gives run threads) }
{
    with_crew(rt, gate, alloc, threads, run)
}

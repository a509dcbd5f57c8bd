//! Groups of flows, and the cores that they are on.

ghost use Rattle.std.specs.Prelude.{◌≡◌};

use std::alloc::{AllocError, Global};
use std::sync::Wait;
use std::test::*;
use std::thread;
use std::thread::Threads;
use steering::*;
use tas_model::FourTuple;

fn flow(lport: u16, rport: u16) -> FourTuple {
    FourTuple {
        laddr: 0x0a00_0002,
        lport,
        raddr: 0x0a00_0001,
        rport,
    }
}

#[test]
fn a_group_is_the_sum_of_a_four_tuple_modulo_64(rt: HostRuntime) {
    let groups = [group(&flow(80, 49_152)), group(&flow(80, 49_153))];
    assert_eq!(rt; groups, [19, 20]);
}

// The cores of groups 18, 19 and 21.
fn cores<R: Wait>(rt: &R, steering: &Steering, pass: &mut SteerPass) -> [u32; 3]
    requires { pass.old.place ≡ steering.now }
    ensures { pass.new.place ≡ pass.old.place }
{
    [
        steering.core_of(rt, pass, 18),
        steering.core_of(rt, pass, 19),
        steering.core_of(rt, pass, 21),
    ]
}

// These cores as one pass sees them, before another assigns group 19 to core 0, and after it.
fn cores_around<R: Wait>(rt: &R, alloc: Global) -> Result<[[u32; 3]; 2], AllocError> {
    let (steering, mut first) = Steering::new(alloc, 2)?;
    let mut other = steering.pass(alloc, &mut first)?;
    let before = cores(rt, &steering, &mut other);
    steering.assign(rt, &mut first, 19, 0);
    let after = cores(rt, &steering, &mut other);
    Ok([before, after])
}

#[test]
fn a_group_goes_where_it_is_assigned(rt: HostRuntime) -> Result<(), Fail> {
    let cores = cores_around(&rt, rt.alloc())?;
    assert_eq!(rt; cores, [[0, 1, 1], [0, 0, 1]]);
    Ok(())
}

fn climb<R: Wait>(rt: &R, steering: &Steering, mut pass: SteerPass)
    requires { (pass.place ≡ steering.now) × (steering.now.cores ≡ 16) }
{
    for core in 6..16 {
        steering.assign(rt, &mut pass, 5, core);
    }
}

// Whether group 5 never went back to a lower core.
fn watch<R: Wait>(rt: &R, steering: &Steering, mut pass: SteerPass) -> bool
    requires { pass.place ≡ steering.now }
{
    let mut last = 5;
    for _ in 0..1_000_000 {
        let core = steering.core_of(rt, &mut pass, 5);
        if core < last {
            return false;
        }
        if core == 15 {
            return true;
        }
        last = core;
    }
    true
}

// Whether a reader beside the writer never saw group 5 go back, and its core in the end.
fn climbed<R: Threads + Wait + Sync>(rt: &R, alloc: Global) -> Result<(bool, u32), AllocError> {
    let (steering, mut first) = Steering::new(alloc, 16)?;
    let writer = steering.pass(alloc, &mut first)?;
    let reader = steering.pass(alloc, &mut first)?;
    let shared = &steering;
    let ((), in_order) = thread::join(
        rt,
        move ||
            requires { (writer.place ≡ shared.now) × (shared.now.cores ≡ 16) }
        { climb(rt, shared, writer) },
        move ||
            requires { reader.place ≡ shared.now }
        { watch(rt, shared, reader) },
    );
    Ok((in_order, steering.core_of(rt, &mut first, 5)))
}

#[test]
fn a_reader_beside_the_writer_never_goes_back(rt: HostRuntime) -> Result<(), Fail> {
    assert_eq!(rt; climbed(&rt, rt.alloc())?, (true, 15));
    Ok(())
}

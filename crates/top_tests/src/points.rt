//! Runs by the top call pass the gate points of their cores and applications.

ghost use Rattle.std.specs.Prelude.{◌<◌};

use crate::watch::{Counts, Watch};
use std::alloc::{AllocError, Global};
use std::process::Abort;
use std::sync::Wait;
use std::test::*;
use std::thread::Threads;
use tas_num::{SureSink, SureSource};
use tas_top::tas;

/// Two clients of a server, whose flows are of groups 19 and 20 on host b, which cores 1 and 0 of two have.
const SCENARIO: &[u8] = b"host a 10.0.0.1 iss 1000 rto 3
host b 10.0.0.2 iss 5000 rto 3
app b server
listen lst 80
accept s lst
recv s 5
close s
app a client
connect s b 80
send s hello
close s
app a other
connect s b 80
send s hello
close s
";

/// A capture of two SYNs in one tick, from ports 40,000 and 40,001, whose flows cores 0 and 1 of two have, or 1 and 0.
const CAPTURE: &[u8] = &[
    // The header of the file: link type 101, raw IP.
    0xd4, 0xc3, 0xb2, 0xa1, 2, 0, 4, 0, 0, 0, 0, 0, 0, 0, 0, 0, 0xff, 0xff, 0, 0, 101, 0, 0, 0,
    // A record of 40 bytes, its IP header, and its TCP header.
    0, 0, 0, 0, 0, 0, 0, 0, 40, 0, 0, 0, 40, 0, 0, 0, 0x45, 0, 0, 40, 0, 0, 0x40, 0, 0x40, 6, 0x26,
    0xce, 10, 0, 0, 1, 10, 0, 0, 2, 0x9c, 0x40, 0, 80, 0, 0, 0, 100, 0, 0, 0, 0, 0x50, 2, 0xff,
    0xff, 0xfe, 0xeb, 0, 0,
    // The other one.
    0, 0, 0, 0, 0, 0, 0, 0, 40, 0, 0, 0, 40, 0, 0, 0, 0x45, 0, 0, 40, 0, 0, 0x40, 0, 0x40, 6, 0x26,
    0xce, 10, 0, 0, 1, 10, 0, 0, 2, 0x9c, 0x41, 0, 80, 0, 0, 0, 200, 0, 0, 0, 0, 0x50, 2, 0xff,
    0xff, 0xfe, 0x86, 0, 0,
];

/// Runs what the words ask for, by this gate. The answer is what the gate counted; the status must be 0.
fn watched<R: Threads + Wait + Sync + Abort>(
    rt: &R,
    alloc: Global,
    words: &[&str],
    input: &[u8],
    watch: &Watch,
) -> Result<Counts, Fail> {
    let words = words_of(alloc, words)?;
    let mut source = SureSource::new(alloc, input)?;
    let mut sink = SureSink::new(alloc);
    let mut faults = SureSink::new(alloc);
    let status = tas(
        rt,
        alloc,
        &words,
        &mut source,
        &mut sink,
        &mut faults,
        watch,
    );
    assert_eq!(rt; status, 0);
    Ok(watch.counts())
}

/// The words, as the program gets them.
fn words_of(alloc: Global, words: &[&str]) -> Result<Vec<String>, AllocError> {
    let mut all = Vec::new(alloc);
    for word in words {
        all.push(String::from_str(alloc, word)?)?;
    }
    Ok(all)
}

/// Wants points of both cores, and that a worker was held, and not until its turns ran out: so both ran at once.
fn met<R: Abort>(rt: &R, counts: Counts) {
    assert!(rt; counts.by_first > 0);
    assert!(rt; counts.by_second > 0);
    assert!(rt; counts.was_held);
    assert!(rt; !counts.ran_out);
}

/// Runs what the words ask for twice: the first core waits before a frame until the second has taken one, and the other
/// way round. Their host has its points from `base` on.
fn meet<R: Threads + Wait + Sync + Abort>(
    rt: &R,
    alloc: Global,
    words: &[&str],
    input: &[u8],
    base: u32,
) -> Result<(), Fail>
    requires { base < 1000 }
{
    let counts = watched(rt, alloc, words, input, &Watch::new(base, base + 3))?;
    met(rt, counts);
    let counts = watched(rt, alloc, words, input, &Watch::new(base + 2, base + 1))?;
    met(rt, counts);
    Ok(())
}

/// Runs what the words ask for on one core: the second one passes no point.
fn stay<R: Threads + Wait + Sync + Abort>(
    rt: &R,
    alloc: Global,
    words: &[&str],
    input: &[u8],
) -> Result<(), Fail> {
    let counts = watched(rt, alloc, words, input, &Watch::new(u32::MAX, u32::MAX))?;
    assert!(rt; counts.by_first > 0);
    assert_eq!(rt; counts.by_second, 0);
    Ok(())
}

/// Runs what the words ask for in serial order: nobody passes a point.
fn pass_none<R: Threads + Wait + Sync + Abort>(
    rt: &R,
    alloc: Global,
    words: &[&str],
    input: &[u8],
) -> Result<(), Fail> {
    let counts = watched(rt, alloc, words, input, &Watch::new(u32::MAX, u32::MAX))?;
    assert_eq!(rt; counts.by_first, 0);
    assert_eq!(rt; counts.by_second, 0);
    assert_eq!(rt; counts.by_others, 0);
    Ok(())
}

/// Two cores of the second host run at once.
#[test]
fn a_scenario_runs_on_two_cores(rt: HostRuntime) -> Result<(), Fail> {
    meet(&rt, rt.alloc(), &["run", "--cores", "2"], SCENARIO, 64)
}

/// Two cores of the host run at once.
#[test]
fn a_capture_is_replayed_on_two_cores(rt: HostRuntime) -> Result<(), Fail> {
    let words = &["replay", "--local", "10.0.0.2", "--cores", "2"];
    meet(&rt, rt.alloc(), words, CAPTURE, 0)
}

/// Two cores of the servers' host run at once. There are three, as the numbers of a made scenario's groups are all odd.
#[test]
fn a_made_scenario_runs_on_two_cores(rt: HostRuntime) -> Result<(), Fail> {
    meet(&rt, rt.alloc(), &["bulk", "3", "--cores", "3"], b"", 64)
}

#[test]
fn one_core_runs_alone(rt: HostRuntime) -> Result<(), Fail> {
    let alloc = rt.alloc();
    stay(&rt, alloc, &["run", "--cores", "1"], SCENARIO)?;
    stay(&rt, alloc, &["bulk", "4", "--cores", "1"], b"")?;
    let words = &["replay", "--local", "10.0.0.2", "--cores", "1"];
    stay(&rt, alloc, words, CAPTURE)
}

#[test]
fn serial_words_start_no_cores(rt: HostRuntime) -> Result<(), Fail> {
    let alloc = rt.alloc();
    pass_none(&rt, alloc, &["run"], SCENARIO)?;
    pass_none(&rt, alloc, &["run", "--serial"], SCENARIO)?;
    pass_none(&rt, alloc, &["bulk", "4"], b"")?;
    pass_none(&rt, alloc, &["replay", "--local", "10.0.0.2"], CAPTURE)
}

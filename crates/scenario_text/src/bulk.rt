//! The scenario of many clients.

ghost use Rattle.std.specs.Prelude.{◌≡◌, ◌≤◌, ◌<◌, ◌++◌, Ok, IfOk, OnOk};
ghost use Rattle.std.specs.List.{flat_map, range_with_len};
ghost use Rattle.scenario_text.specs.Bulk as texts;
ghost use Rattle.scenario_text.specs.Reads.{reads};

use crate::printing::put_line;
use crate::reading::{ScenarioFault, read_scenario};
use crate::scenario::Scenario;
use itoa::Buffer;
use std::alloc::{AllocError, Global};

/// The scenario of `n` clients on one host, each with a server of its own on another, over a link that loses one
/// frame of seven of each client; from 1 to 1,000 of them. The error is want of memory.
pub fn bulk_scenario(alloc: Global, n: u32) -> Result<Scenario, AllocError>
    requires some { 1 ≤ n }
    requires few { n ≤ 1000 }
    ensures { IfOk result (λ s. reads (texts.bulk_text n) ≡ Ok s) }
{
    let mut text = Vec::new(alloc);
    put_hosts(&mut text)?;
    for i in 0..n {
        put_server(alloc, &mut text, i)?;
    }
    for i in 0..n {
        put_client(alloc, &mut text, i)?;
    }
    match read_scenario(alloc, &text) {
        Ok(scenario) => Ok(scenario),
        Err(ScenarioFault::OutOfMemory) => Err(AllocError),
        Err(ScenarioFault::Refused { .. }) => unreachable!(),
    }
}

/// Appends the lines of the hosts and their link. The error is want of memory.
fn put_hosts(out: &mut Vec<u8>) -> Result<(), AllocError>
    ensures { OnOk result (out.new.items ≡ out.old.items ++ texts.bulk_hosts) }
{
    put_line(out, b"limit", &[b"5000"])?;
    put_line(out, b"host", &[b"a", b"10.0.0.1", b"rto", b"8"])?;
    put_line(out, b"host", &[b"b", b"10.0.0.2", b"rto", b"8"])?;
    put_line(out, b"dropeach", &[b"a", b"7"])
}

/// Appends the line of an application on a host, whose name is a letter and a number. The error is want of memory.
fn put_app(
    alloc: Global,
    out: &mut Vec<u8>,
    host: &[u8],
    letter: u8,
    i: u32,
) -> Result<(), AllocError>
    ensures { OnOk result (out.new.items ≡ out.old.items ++ texts.numbered_app host.now letter i) }
{
    let mut name = Vec::new(alloc);
    name.push(letter)?;
    name.extend_from_slice(Buffer::new().format(i).as_bytes())?;
    put_line(out, b"app", &[host, &name])
}

/// Appends the lines of a server. The error is want of memory.
fn put_server(alloc: Global, out: &mut Vec<u8>, i: u32) -> Result<(), AllocError>
    requires { i < 1000 }
    ensures { OnOk result (out.new.items ≡ out.old.items ++ texts.server_text i) }
{
    put_app(alloc, out, b"b", b's', i)?;
    put_line(
        out,
        b"listen",
        &[b"l", Buffer::new().format(1_000 + i).as_bytes()],
    )?;
    put_line(out, b"accept", &[b"s", b"l"])?;
    put_line(out, b"drain", &[b"s"])?;
    put_line(out, b"close", &[b"s"])
}

/// Appends the lines of a client. The error is want of memory.
fn put_client(alloc: Global, out: &mut Vec<u8>, i: u32) -> Result<(), AllocError>
    requires { i < 1000 }
    ensures { OnOk result (out.new.items ≡ out.old.items ++ texts.client_text i) }
{
    put_app(alloc, out, b"a", b'c', i)?;
    put_line(
        out,
        b"connect",
        &[b"s", b"b", Buffer::new().format(1_000 + i).as_bytes()],
    )?;
    put_line(out, b"fill", &[b"s", b"65536"])?;
    put_line(out, b"close", &[b"s"])
}

//! A scenario's text, line by line.

ghost use Rattle.std.specs.Prelude.{◌≡◌, ◌++◌, ◌∷◌, [], map, codes, decimal, IfOk, OnOk};
ghost use Rattle.std.specs.List.{flat_map};
ghost use Rattle.scenario_text.specs.Canonical as texts;

use crate::scenario::{AppLine, HostLine, KillLine, MoveLine, Scenario, Step};
use itoa::Buffer;
use link_script::{DropEach, LinkAct, LinkScript, Target};
use std::alloc::{AllocError, Global};
use tas_model::{Bytes, HostParams};

/// The canonical text of a scenario: all options and defaults, each line in the order of its kind. The error is want of
/// memory.
pub fn print_scenario(alloc: Global, s: &Scenario) -> Result<Bytes, AllocError>
    ensures { IfOk result (λ text. text ≡ texts.canonical s.now) }
{
    let hosts = s.hosts.as_slice();
    let mut out = Vec::new(alloc);
    put_line(
        &mut out,
        b"limit",
        &[Buffer::new().format(s.limit).as_bytes()],
    )?;
    put_hosts(alloc, &mut out, hosts)?;
    put_apps(&mut out, s.apps.as_slice())?;
    put_acts(&mut out, hosts, &s.link)?;
    put_drops(&mut out, hosts, s.link.drops())?;
    put_moves(&mut out, s.moves.as_slice())?;
    put_kills(&mut out, s.kills.as_slice())?;
    Ok(Bytes::of(out))
}

/// Appends a line of words. The error is want of memory.
pub(crate) fn put_line(out: &mut Vec<u8>, word: &[u8], words: &[&[u8]]) -> Result<(), AllocError>
    ensures { OnOk result (out.new.items ≡ out.old.items ++ texts.line_of word.now (map (λ w. w.now) words.now)) }
{
    out.extend_from_slice(word)?;
    for word in words {
        out.push(b' ')?;
        out.extend_from_slice(word)?;
    }
    out.push(b'\n')?;
    Ok(())
}

/// Appends a line of two words. The error is want of memory.
fn put_two(out: &mut Vec<u8>, word: &[u8], a: &[u8]) -> Result<(), AllocError>
    ensures { OnOk result (out.new.items ≡ out.old.items ++ texts.line_of word.now (a.now ∷ [])) }
{
    put_line(out, word, &[a])
}

/// Appends a line of three words. The error is want of memory.
fn put_three<'x>(out: &mut Vec<u8>, word: &[u8], a: &'x [u8], b: &'x [u8]) -> Result<(), AllocError>
    ensures { OnOk result (out.new.items ≡ out.old.items ++ texts.line_of word.now (a.now ∷ b.now ∷ [])) }
{
    put_line(out, word, &[a, b])
}

/// Appends a line of four words. The error is want of memory.
fn put_four<'x>(
    out: &mut Vec<u8>,
    word: &[u8],
    a: &'x [u8],
    b: &'x [u8],
    c: &'x [u8],
) -> Result<(), AllocError>
    ensures { OnOk result (out.new.items ≡ out.old.items ++ texts.line_of word.now (a.now ∷ b.now ∷ c.now ∷ [])) }
{
    put_line(out, word, &[a, b, c])
}

/// Appends a line of a word, a name and a number. The error is want of memory.
fn put_number(out: &mut Vec<u8>, word: &[u8], name: &[u8], number: u32) -> Result<(), AllocError>
    ensures { OnOk result (out.new.items ≡ out.old.items ++ texts.line_of word.now (name.now ∷ decimal number ∷ [])) }
{
    put_three(out, word, name, Buffer::new().format(number).as_bytes())
}

/// Appends a line of a word, a frame and a number. The error is want of memory.
fn put_frame_number<'x>(
    out: &mut Vec<u8>,
    word: &[u8],
    host: &'x [u8],
    flow: &'x [u8],
    number: &'x [u8],
    more: u32,
) -> Result<(), AllocError>
    ensures { OnOk result (out.new.items
        ≡ out.old.items ++ texts.line_of word.now (host.now ∷ flow.now ∷ number.now ∷ decimal more ∷ [])) }
{
    put_line(
        out,
        word,
        &[host, flow, number, Buffer::new().format(more).as_bytes()],
    )
}

fn put_hosts(alloc: Global, out: &mut Vec<u8>, hosts: &[HostLine]) -> Result<(), AllocError>
    ensures { OnOk result (out.new.items ≡ out.old.items ++ flat_map texts.host_text hosts.now) }
{
    for host in hosts {
        put_host(alloc, out, host)?;
    }
    Ok(())
}

fn put_apps(out: &mut Vec<u8>, apps: &[AppLine]) -> Result<(), AllocError>
    ensures { OnOk result (out.new.items ≡ out.old.items ++ flat_map texts.app_text apps.now) }
{
    for app in apps {
        put_app(out, app)?;
    }
    Ok(())
}

fn put_app(out: &mut Vec<u8>, app: &AppLine) -> Result<(), AllocError>
    ensures { OnOk result (out.new.items ≡ out.old.items ++ texts.app_text app.now) }
{
    put_three(out, b"app", app.host.as_slice(), app.name.as_slice())?;
    put_steps(out, app.steps.as_slice())
}

fn put_steps(out: &mut Vec<u8>, steps: &[Step]) -> Result<(), AllocError>
    ensures { OnOk result (out.new.items ≡ out.old.items ++ flat_map texts.step_text steps.now) }
{
    for step in steps {
        put_step(out, step)?;
    }
    Ok(())
}

fn put_acts(out: &mut Vec<u8>, hosts: &[HostLine], link: &LinkScript) -> Result<(), AllocError>
    ensures { OnOk result (out.new.items ≡ out.old.items ++ flat_map (texts.act_text hosts.now) link.now.acts) }
{
    for (target, act) in link.acts() {
        put_act(out, hosts, target, *act)?;
    }
    Ok(())
}

fn put_drops(out: &mut Vec<u8>, hosts: &[HostLine], drops: &[DropEach]) -> Result<(), AllocError>
    ensures { OnOk result (out.new.items ≡ out.old.items ++ flat_map (texts.each_text hosts.now) drops.now) }
{
    for line in drops {
        put_drop(out, hosts, line)?;
    }
    Ok(())
}

fn put_drop(out: &mut Vec<u8>, hosts: &[HostLine], line: &DropEach) -> Result<(), AllocError>
    ensures { OnOk result (out.new.items ≡ out.old.items ++ texts.each_text hosts.now line.now) }
{
    put_number(out, b"dropeach", name_at(hosts, line.host), line.k)
}

fn put_moves(out: &mut Vec<u8>, moves: &[MoveLine]) -> Result<(), AllocError>
    ensures { OnOk result (out.new.items ≡ out.old.items ++ flat_map texts.move_text moves.now) }
{
    for line in moves {
        put_move(out, line)?;
    }
    Ok(())
}

fn put_kills(out: &mut Vec<u8>, kills: &[KillLine]) -> Result<(), AllocError>
    ensures { OnOk result (out.new.items ≡ out.old.items ++ flat_map texts.kill_text kills.now) }
{
    for line in kills {
        put_kill(out, line)?;
    }
    Ok(())
}

/// The name of the host of a number.
fn name_at(hosts: &[HostLine], host: u32) -> &[u8]
    ensures { result.now ≡ texts.name_at hosts.now host }
{
    match hosts.get(host as usize) {
        Some(line) => line.name.as_slice(),
        None => &[],
    }
}

/// An address, as four numbers with dots. The error is want of memory.
fn address_text(alloc: Global, addr: u32) -> Result<Vec<u8>, AllocError>
    ensures { IfOk result (λ text. text.items ≡ texts.address_text addr) }
{
    let mut text = Vec::new(alloc);
    text.extend_from_slice(Buffer::new().format(addr / 16_777_216).as_bytes())?;
    text.push(b'.')?;
    text.extend_from_slice(Buffer::new().format(addr / 65_536 % 256).as_bytes())?;
    text.push(b'.')?;
    text.extend_from_slice(Buffer::new().format(addr / 256 % 256).as_bytes())?;
    text.push(b'.')?;
    text.extend_from_slice(Buffer::new().format(addr % 256).as_bytes())?;
    Ok(text)
}

fn put_host(alloc: Global, out: &mut Vec<u8>, host: &HostLine) -> Result<(), AllocError>
    ensures { OnOk result (out.new.items ≡ out.old.items ++ texts.host_text host.now) }
{
    let addr = address_text(alloc, host.params.addr)?;
    put_params(out, host.name.as_slice(), &addr, &host.params)
}

fn put_params(
    out: &mut Vec<u8>,
    name: &[u8],
    addr: &[u8],
    params: &HostParams,
) -> Result<(), AllocError>
    ensures { OnOk result (out.new.items
        ≡ out.old.items ++ texts.line_of (codes "host") (name.now ∷ addr.now ∷ texts.params_words params.now)) }
{
    let mut iss = Buffer::new();
    let mut ring = Buffer::new();
    let mut mss = Buffer::new();
    let mut rto = Buffer::new();
    let mut slots = Buffer::new();
    let mut backlog = Buffer::new();
    let mut scale = Buffer::new();
    let words = [
        name,
        addr,
        b"iss".as_slice(),
        iss.format(params.iss).as_bytes(),
        b"ring".as_slice(),
        ring.format(params.ring).as_bytes(),
        b"mss".as_slice(),
        mss.format(params.mss).as_bytes(),
        b"rto".as_slice(),
        rto.format(params.rto).as_bytes(),
        b"slots".as_slice(),
        slots.format(params.slots).as_bytes(),
        b"backlog".as_slice(),
        backlog.format(params.backlog).as_bytes(),
        b"scale".as_slice(),
        scale
            .format(u32::from(params.scale.unwrap_or(0)))
            .as_bytes(),
    ];
    match params.scale {
        Some(_) => put_line(out, b"host", &words),
        None => put_line(out, b"host", &words[..14]),
    }
}

fn put_step(out: &mut Vec<u8>, step: &Step) -> Result<(), AllocError>
    ensures { OnOk result (out.new.items ≡ out.old.items ++ texts.step_text step.now) }
{
    match step {
        Step::Listen(name, port) => put_number(out, b"listen", name.as_slice(), *port),
        Step::Accept(name, listener) => {
            put_three(out, b"accept", name.as_slice(), listener.as_slice())
        }
        Step::Connect(name, host, port) => {
            put_connect(out, name.as_slice(), host.as_slice(), *port)
        }
        Step::Send(name, text) => put_three(out, b"send", name.as_slice(), text.as_slice()),
        Step::Fill(name, count) => put_number(out, b"fill", name.as_slice(), *count),
        Step::Recv(name, count) => put_number(out, b"recv", name.as_slice(), *count),
        Step::Drain(name) => put_two(out, b"drain", name.as_slice()),
        Step::Shut(name) => put_two(out, b"shut", name.as_slice()),
        Step::Close(name) => put_two(out, b"close", name.as_slice()),
        Step::Abort(name) => put_two(out, b"abort", name.as_slice()),
        Step::Wait(ticks) => put_two(out, b"wait", Buffer::new().format(*ticks).as_bytes()),
    }
}

fn put_connect<'x>(
    out: &mut Vec<u8>,
    name: &'x [u8],
    host: &'x [u8],
    port: u32,
) -> Result<(), AllocError>
    ensures { OnOk result (out.new.items
        ≡ out.old.items ++ texts.line_of (codes "connect") (name.now ∷ host.now ∷ decimal port ∷ [])) }
{
    put_four(
        out,
        b"connect",
        name,
        host,
        Buffer::new().format(port).as_bytes(),
    )
}

fn put_act(
    out: &mut Vec<u8>,
    hosts: &[HostLine],
    target: &Target,
    act: LinkAct,
) -> Result<(), AllocError>
    ensures { OnOk result (out.new.items ≡ out.old.items ++ texts.act_text hosts.now (target.now, act)) }
{
    let mut flow = Buffer::new();
    let mut number = Buffer::new();
    let host = name_at(hosts, target.host);
    put_act_line(
        out,
        host,
        flow.format(target.flow).as_bytes(),
        number.format(target.number).as_bytes(),
        act,
    )
}

fn put_act_line<'x>(
    out: &mut Vec<u8>,
    host: &'x [u8],
    flow: &'x [u8],
    number: &'x [u8],
    act: LinkAct,
) -> Result<(), AllocError>
    ensures { OnOk result (out.new.items ≡ out.old.items ++ texts.act_line host.now flow.now number.now act) }
{
    match act {
        LinkAct::Drop => put_four(out, b"drop", host, flow, number),
        LinkAct::Dup => put_four(out, b"dup", host, flow, number),
        LinkAct::Delay(ticks) => put_frame_number(out, b"delay", host, flow, number, ticks),
        LinkAct::Corrupt(place) => put_frame_number(out, b"corrupt", host, flow, number, place),
    }
}

fn put_move(out: &mut Vec<u8>, line: &MoveLine) -> Result<(), AllocError>
    ensures { OnOk result (out.new.items ≡ out.old.items ++ texts.move_text line.now) }
{
    let mut group = Buffer::new();
    let mut core = Buffer::new();
    let mut at = Buffer::new();
    let words = [
        line.host.as_slice(),
        group.format(line.group).as_bytes(),
        core.format(line.core).as_bytes(),
        b"at".as_slice(),
        at.format(line.at).as_bytes(),
    ];
    put_line(out, b"move", &words)
}

fn put_kill(out: &mut Vec<u8>, line: &KillLine) -> Result<(), AllocError>
    ensures { OnOk result (out.new.items ≡ out.old.items ++ texts.kill_text line.now) }
{
    let mut at = Buffer::new();
    let at = at.format(line.at).as_bytes();
    if line.holding {
        return put_line(
            out,
            b"kill",
            &[
                line.host.as_slice(),
                line.app.as_slice(),
                b"at".as_slice(),
                at,
                b"holding".as_slice(),
            ],
        );
    }
    put_line(
        out,
        b"kill",
        &[
            line.host.as_slice(),
            line.app.as_slice(),
            b"at".as_slice(),
            at,
        ],
    )
}

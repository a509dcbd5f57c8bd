//! The words of a line: names, numbers and addresses.

ghost use Rattle.std.specs.Prelude.{◌≡◌, IfOk};
ghost use Rattle.std.specs.Option.{option_map};
ghost use Rattle.scenario_text.specs.Statements as forms;

use crate::scenario::{KillLine, MoveLine, Step};
use crate::statement::{Reading, Statement};
use crate::words::{is_name, number_in};
use link_script::LinkAct;
use std::alloc::{AllocError, Global};
use tas_model::Bytes;

/// A word, where it is a name. The error is want of memory.
pub(crate) fn named(alloc: Global, name: &[u8]) -> Result<Option<Bytes>, AllocError>
    ensures { IfOk result (λ r. r ≡ forms.named name.now) }
{
    if !is_name(name) {
        return Ok(None);
    }
    Ok(Some(Bytes::copy(alloc, name)?))
}

/// A name and a number, where both are.
pub(crate) fn named_number(
    alloc: Global,
    name: &[u8],
    number: Option<u32>,
) -> Result<Option<(Bytes, u32)>, AllocError>
    ensures { IfOk result (λ r. r ≡ forms.named_number name.now number) }
{
    match (named(alloc, name)?, number) {
        (Some(name), Some(number)) => Ok(Some((name, number))),
        _ => Ok(None),
    }
}

/// Two names, where both are.
pub(crate) fn two_names(
    alloc: Global,
    a: &[u8],
    b: &[u8],
) -> Result<Option<(Bytes, Bytes)>, AllocError>
    ensures { IfOk result (λ r. r ≡ forms.two_names a.now b.now) }
{
    match (named(alloc, a)?, named(alloc, b)?) {
        (Some(a), Some(b)) => Ok(Some((a, b))),
        _ => Ok(None),
    }
}

/// A frame of a host: the host's name, the flow's opening number and the frame's number.
pub(crate) fn frame_named(
    alloc: Global,
    host: &[u8],
    flow: &[u8],
    number: &[u8],
) -> Result<Option<(Bytes, u32, u32)>, AllocError>
    ensures { IfOk result (λ r. r ≡ forms.frame_named host.now flow.now number.now) }
{
    match (
        named(alloc, host)?,
        number_in(0, 4_294_967_294, flow),
        number_in(0, 4_294_967_294, number),
    ) {
        (Some(host), Some(flow), Some(number)) => Ok(Some((host, flow, number))),
        _ => Ok(None),
    }
}

/// A line on a frame.
pub(crate) fn on_frame(frame: Option<(Bytes, u32, u32)>, act: Option<LinkAct>) -> Reading
    ensures { result ≡ forms.on_frame frame act }
{
    match (frame, act) {
        (Some((host, flow, number)), Some(act)) => Reading::Says(Statement::OnFrame(
            host, flow, number, act,
        )),
        _ => Reading::Wrong(5),
    }
}

/// A connect.
pub(crate) fn connecting(names: Option<(Bytes, Bytes)>, port: Option<u32>) -> Reading
    ensures { result ≡ forms.connecting names port }
{
    match (names, port) {
        (Some((socket, host)), Some(port)) => Reading::Says(Statement::Do(Step::Connect(
            socket, host, port,
        ))),
        _ => Reading::Wrong(5),
    }
}

/// A move.
pub(crate) fn moving(
    host: Option<Bytes>,
    group: Option<u32>,
    core: Option<u32>,
    at: Option<u32>,
    worded: bool,
) -> Reading
    ensures { result ≡ forms.moving host group core at worded }
{
    match (host, group, core, at) {
        (Some(host), Some(group), Some(core), Some(at)) => {
            Reading::Says(Statement::Move(
                MoveLine {
                    host,
                    group,
                    core,
                    at,
                },
                worded,
            ))
        }
        _ => Reading::Wrong(5),
    }
}

/// A kill.
pub(crate) fn killing(
    names: Option<(Bytes, Bytes)>,
    at: Option<u32>,
    holding: bool,
    worded: bool,
) -> Reading
    ensures { result ≡ forms.killing names at holding worded }
{
    match (names, at) {
        (Some((host, app)), Some(at)) => Reading::Says(Statement::Kill(
            KillLine {
                host,
                app,
                at,
                holding,
            },
            worded,
        )),
        _ => Reading::Wrong(5),
    }
}

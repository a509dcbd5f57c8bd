//! Which applications try to give a socket up in a phase, and the books of the flows whose socket was given up.
ghost use Rattle.std.specs.Prelude.{◌≡◌, ◌≤◌, ◌-◌, Some, slice_get, map, IfOk};
ghost use Rattle.core_phase.specs.Attempts.{MayTry};
ghost use Rattle.core_phase.specs.Lanes.{MayPlay};
ghost use Rattle.core_phase.specs.declared.lane.AppLane.{AppLane};
ghost use Rattle.core_phase.specs.declared.lane.Lane.TheVariants as lanes_of;
ghost use Rattle.host_rounds.specs.Lists.{Each};
ghost use Rattle.core_host.specs.Leaving.{leaver_by, leaver_of, has_left as is_left, books_if, books_where, books_by};
ghost use Rattle.core_host.specs.Sound.{AreStaff};
ghost use Rattle.libtas_sockets.specs.Apps.{flow_of};

use crate::books::Books;
use core_phase::{Answered, AppLane, Attempt, Lane};
use libtas_sockets::SocketError;
use std::alloc::{AllocError, Global};
use tas_model::FlowId;

/// An application that tries to close or abort a flow.
#[derive(Clone, Copy, Debug, Drop)]
pub(crate) struct Leaver {
    pub(crate) app: u32,
    pub(crate) flow: FlowId,
    pub(crate) aborts: bool,
}

/// Who of each lane tries to give a socket up. The error is want of memory.
pub(crate) fn leavers_of(
    alloc: Global,
    cores: u32,
    names: &[u32],
    lanes: &[Lane],
) -> Result<Vec<Option<Leaver>>, AllocError>
    requires staff { AreStaff cores 0 names.now lanes.now }
    requires may { Each MayPlay lanes.now }
    ensures { IfOk result (λ leavers. leavers.items ≡ map leaver_of lanes.now) }
{
    let mut leavers = Vec::with_capacity(alloc, lanes.len())?;
    for (i, lane) in lanes.iter().enumerate() {
        leavers.push(leaver_at(cores as usize, names, i, lane))?;
    }
    Ok(leavers)
}

/// Who of the lane at place `i` tries to give a socket up, where so many cores stand before the applications.
fn leaver_at(cores: usize, names: &[u32], i: usize, lane: &Lane) -> Option<Leaver>
    requires named { (l : AppLane) → lane.now ≡ lanes_of.App l
        → (cores ≤ i) × (slice_get names.now (i - cores) ≡ Some l.app.number) }
    requires may { MayPlay lane.now }
    ensures { result ≡ leaver_of lane.now }
{
    match lane {
        Lane::Core(_) => None,
        Lane::App(app) => leaver_in(names[i - cores], app),
    }
}

fn leaver_in(app: u32, lane: &AppLane) -> Option<Leaver>
    requires { MayTry lane.now.app lane.now.socket lane.now.attempt }
    ensures { result ≡ leaver_by lane.now.attempt app (flow_of lane.now.app lane.now.socket) }
{
    let aborts = match &lane.attempt {
        Attempt::Close => false,
        Attempt::Abort => true,
        _ => return None,
    };
    Some(Leaver {
        app,
        flow: lane.app.flow(lane.socket),
        aborts,
    })
}

/// The sockets that were given up in a phase, by the answers of these lanes, have no holder any more.
pub(crate) fn leave_all(books: &mut Books, lanes: &[Lane], leavers: &[Option<Leaver>])
    ensures { books.new ≡ books_by leavers.now lanes.now books.old }
{
    if let Some((leaver, leavers)) = leavers.split_first() {
        if let Some((lane, lanes)) = lanes.split_first() {
            leave(books, lane, *leaver);
            leave_all(books, lanes, leavers);
        }
    }
}

/// The application of the lane gave its socket up, where it tried to and was answered so.
fn leave(books: &mut Books, lane: &Lane, leaver: Option<Leaver>)
    ensures { books.new ≡ books_where leaver lane.now books.old }
{
    let Some(leaver) = leaver else {
        return;
    };
    if let Lane::App(app) = lane {
        leave_by(books, &app.answer, leaver);
    }
}

fn leave_by(books: &mut Books, answer: &Answered, leaver: Leaver)
    ensures { books.new ≡ books_if leaver answer.now books.old }
{
    if has_left(leaver.aborts, answer) {
        books.leave(leaver.app, leaver.flow);
    }
}

/// Whether the answer says that the socket was given up. An Abort gives it up also where the flow was closed.
fn has_left(aborts: bool, answer: &Answered) -> bool
    ensures { result ≡ is_left aborts answer.now }
{
    match answer {
        Answered::Done(Ok(())) => true,
        Answered::Done(Err(SocketError::Closed(_))) => aborts,
        _ => false,
    }
}

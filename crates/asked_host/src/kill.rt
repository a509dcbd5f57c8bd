//! A kill on the host of a serial run: the flows that it concerns are aborted, one after the other.
ghost use Rattle.std.specs.Prelude.{◌≡◌, ◌<◌, true, length, map, slice_get, Some, OnOk};
ghost use Rattle.host_rounds.specs.Hosts.{Live, at_flow};
ghost use Rattle.scenario_runs.specs.Applications.{aborted_where, is_concerned as model_concerned};
ghost use Rattle.asked_host.specs.Kills.{without_app};

use flow_state::CallIn;
use local_host::{Holder, LocalHost};
use std::alloc::AllocError;
use tas_model::Caller;

/// The application's flows are aborted, and its listeners go. The error is want of memory.
pub(crate) fn end_app(host: &mut LocalHost, app: u32, tick: u32) -> Result<(), AllocError>
    ensures { OnOk result (host.new ≡ without_app app tick host.old) }
{
    abort_all(host, app, tick)?;
    host.forget(app);
    Ok(())
}

/// All flows of an application that is killed are aborted. The error is want of memory.
fn abort_all(host: &mut LocalHost, app: u32, tick: u32) -> Result<(), AllocError>
    ensures { OnOk result (host.new ≡ record host.old {
      flows = map
          (λ (l : Live). aborted_where (model_concerned app host.old l) tick l) host.old.flows;
    }) }
{
    for place in 0..host.flow_count() {
        abort_where(host, app, place, tick)?;
    }
    Ok(())
}

/// The flow at a place is aborted where the kill of the application concerns it. The error is want of memory.
fn abort_where(host: &mut LocalHost, app: u32, place: usize, tick: u32) -> Result<(), AllocError>
    requires { place < length host.old.flows }
    ensures { (l : Live) → slice_get host.old.flows place ≡ Some l
        → OnOk result (host.new ≡ at_flow place (aborted_where (model_concerned app host.old l) tick) host.old) }
{
    if is_concerned(host, app, place) {
        abort(host, place, tick)
    } else {
        Ok(())
    }
}

/// Whether the kill of an application concerns the flow at a place: that of one of its sockets, or one that waits at
/// its listeners and is not closed.
fn is_concerned(host: &LocalHost, app: u32, place: usize) -> bool
    requires { place < length host.now.flows }
    ensures { (l : Live) → slice_get host.now.flows place ≡ Some l → result ≡ model_concerned app host.now l }
{
    let flow = host.flow(place);
    match flow.holder() {
        Holder::Application(other) => other == app,
        Holder::Waiting => !flow.is_over() && host.has_listener(app, flow.record().tuple().lport),
        Holder::GivenUp => false,
    }
}

/// The flow at a place is aborted by the slow path, and its socket given up. The error is want of memory.
fn abort(host: &mut LocalHost, place: usize, tick: u32) -> Result<(), AllocError>
    requires { place < length host.old.flows }
    ensures { OnOk result (host.new ≡ at_flow place (aborted_where true tick) host.old) }
{
    let is_held = host.flow(place).is_held();
    host.ask(place, Caller::Slow, tick, &CallIn::Abort)?;
    if is_held {
        host.hold(place, Holder::GivenUp);
    }
    Ok(())
}

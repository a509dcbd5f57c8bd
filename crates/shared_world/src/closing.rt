//! Whether all flows of hosts of shared flows are closed.
ghost use Rattle.std.specs.Prelude.{◌≡◌, slice_get, Some};
ghost use Rattle.std.specs.List.{list_all};
ghost use Rattle.host_rounds.specs.Hosts.{Live, is_over};
ghost use Rattle.host_rounds.specs.Lists.{Each};
ghost use Rattle.core_host.specs.Emission.{IsIndexedAt, flow_of};
ghost use Rattle.core_host.specs.Sound.{IsStaffSound};
ghost use Rattle.core_host.specs.Views.{Staffed, seen_by};
ghost use Rattle.shared_world.specs.Looking.{AreLookedAt, IsLookedAt};

use core_host::{CoreHost, open_flows_are_in_the_index};
use flow_state::FlowRecord;

/// Whether all flows of these hosts are closed. Records are looked at for that, as far as it is needed.
pub(crate) fn are_closed(hosts: &mut [CoreHost]) -> bool
    requires { Each IsStaffSound hosts.old }
    ensures closed { result ≡ list_all (λ (h : Staffed). list_all is_over (seen_by h).flows) hosts.old }
    ensures looked { AreLookedAt hosts.old hosts.new }
{
    match hosts.split_first_mut() {
        Some((host, rest)) => {
            let closed = is_closed(host);
            let others = are_closed(rest);
            closed && others
        }
        None => true,
    }
}

/// Whether all flows of the host are closed. One that the index hasn't is.
fn is_closed(host: &mut CoreHost) -> bool
    requires { IsStaffSound host.old }
    ensures closed { result ≡ list_all is_over (seen_by host.old).flows }
    ensures looked { IsLookedAt host.old host.new }
{
    open_flows_are_in_the_index();
    let mut at = 0;
    for place in 0..host.flow_count() {
        if host.is_indexed(place) {
            if !is_closed_at(host, place, at) {
                return false;
            }
            at += 1;
        }
    }
    true
}

/// Whether the flow at this place is closed, which is in the index, behind so many others.
fn is_closed_at(host: &mut CoreHost, place: usize, at: usize) -> bool
    requires sound { IsStaffSound host.old }
    requires there { IsIndexedAt place at (seen_by host.old) }
    ensures closed { (l : Live) → slice_get (seen_by host.old).flows place ≡ Some l → result ≡ is_over l }
    ensures looked { IsLookedAt host.old host.new }
{
    let flow = host.take_record(at);
    let closed = has_closed(&flow);
    host.give_record(at, flow);
    closed
}

/// Whether the flow of the record is closed.
fn has_closed(flow: &FlowRecord) -> bool
    ensures { (l : Live) → l.flow ≡ flow_of flow.now → result ≡ is_over l }
{
    flow.parts().is_closed()
}

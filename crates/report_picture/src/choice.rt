//! Which flow of a report is drawn, and which is its other end.

ghost use Rattle.std.specs.Prelude.{◌≡◌, ◌==◌, map, slice_get, position};
ghost use Rattle.std.specs.Option.{option_map};
ghost use Rattle.report_picture.specs.Pictures as rules;

use crate::flows::Flow;
use tas_model::FourTuple;

/// Which flow is to be drawn: the first one, or one by its host's name and its opening number.
#[derive(Clone, Copy)]
pub enum Wanted<'a> {
    First,
    Flow { host: &'a [u8], number: u32 },
}

/// Whether the host of this number has this name.
fn is_name(names: &[&[u8]], host: usize, name: &[u8]) -> bool
    ensures { result ≡ rules.is_name (slice_get (map (λ n. n.now) names.now) host) name.now }
{
    match names.get(host) {
        Some(own) => *own == name,
        None => false,
    }
}

/// Whether a flow is wanted.
#[tactic(auto, unfolding(crate::specs::Pictures::is_wanted))]
fn is_wanted(names: &[&[u8]], wanted: Wanted<'_>, flow: &Flow) -> bool
    ensures { result ≡ rules.is_wanted (map (λ n. n.now) names.now) wanted.entry flow.now }
{
    match wanted {
        Wanted::First => true,
        Wanted::Flow { host, number } => flow.number == number && is_name(names, flow.host, host),
    }
}

/// The first flow that is wanted, where it stands.
fn first_wanted<'a>(names: &[&[u8]], wanted: Wanted<'_>, flows: &'a [Flow]) -> Option<&'a Flow>
    ensures { option_map (λ f. f.now) result ≡ rules.chosen (map (λ n. n.now) names.now) wanted.entry flows.now }
{
    flows.iter().find(|flow| is_wanted(names, wanted, flow))
}

/// The first flow that is wanted.
pub fn chosen(names: &[&[u8]], wanted: Wanted<'_>, flows: &[Flow]) -> Option<Flow>
    ensures { result ≡ rules.chosen (map (λ n. n.now) names.now) wanted.entry flows.now }
{
    let flow = first_wanted(names, wanted, flows)?;
    Some(*flow)
}

/// The host of this address, by its number.
fn host_of(addrs: &[u32], addr: u32) -> Option<usize>
    ensures { result ≡ position (λ a. a == addr) addrs.now }
{
    addrs.iter().position(|a| *a == addr)
}

/// The host at the other end, by its number, where it is in the report; a replay has one host alone.
pub fn peer_of(replay: bool, addrs: &[u32], flow: &Flow) -> Option<usize>
    ensures { result ≡ rules.peer_of replay addrs.now flow.now }
{
    if replay {
        return None;
    }
    host_of(addrs, flow.tuple.raddr)
}

/// Whether two four-tuples are one connection's, seen from both ends.
fn are_ends(one: &FourTuple, other: &FourTuple) -> bool
    ensures { result ≡ rules.are_ends one.now other.now }
{
    one.laddr == other.raddr
        && one.lport == other.rport
        && one.raddr == other.laddr
        && one.rport == other.lport
}

/// Whether a flow is the other end of the one that is drawn.
#[tactic(auto, unfolding(crate::specs::Pictures::is_other_end))]
fn is_other_end(peer: Option<usize>, drawn: &Flow, flow: &Flow) -> bool
    ensures { result ≡ rules.is_other_end peer drawn.now flow.now }
{
    peer == Some(flow.host)
        && are_ends(&drawn.tuple, &flow.tuple)
        && !(drawn.host == flow.host && drawn.number == flow.number)
}

/// The first flow of that host with the same ends, where it stands.
fn first_end<'a>(peer: Option<usize>, drawn: &Flow, flows: &'a [Flow]) -> Option<&'a Flow>
    ensures { option_map (λ f. f.now) result ≡ rules.other_end peer drawn.now flows.now }
{
    flows.iter().find(|flow| is_other_end(peer, drawn, flow))
}

/// The first flow of that host with the same ends.
pub fn other_end(peer: Option<usize>, drawn: &Flow, flows: &[Flow]) -> Option<Flow>
    ensures { result ≡ rules.other_end peer drawn.now flows.now }
{
    let flow = first_end(peer, drawn, flows)?;
    Some(*flow)
}

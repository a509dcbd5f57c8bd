//! When a run is at rest.

ghost use Rattle.std.specs.Prelude.{◌≡◌, ℕ, ◌||◌, nat_lt};
ghost use Rattle.std.specs.List.{list_any};
ghost use Rattle.scenario_runs.specs.Worlds.{is_under_way, all_ended, all_closed};

use link_script::{LinkAct, LinkScript, Sent};
use scenario_host::ScenarioHost;

/// The tick in which the last frame comes, of these and of those before them, of which the last comes in `last`; 0
/// where none comes.
pub fn last_coming(link: &LinkScript, frames: &[Sent], last: u64) -> u64
    ensures { (n : ℕ) → nat_lt n result ≡ (nat_lt n last || list_any (is_under_way link.now n) frames.now) }
{
    let mut last = last;
    for frame in frames {
        last = last.max(comes_in(link, frame));
    }
    last
}

/// The tick in which a frame comes, and 0 where it is lost.
fn comes_in(link: &LinkScript, frame: &Sent) -> u64
    ensures { (n : ℕ) → nat_lt n result ≡ is_under_way link.now n frame.now }
{
    let act = link.act_on(&frame.id);
    if matches!(act, Some(LinkAct::Drop)) || link.is_kth(&frame.id) {
        return 0;
    }
    let delay = match act {
        Some(LinkAct::Delay(ticks)) => u64::from(ticks),
        _ => 0,
    };
    u64::from(frame.tick) + 1 + delay
}

/// Whether all scripts of these hosts have ended.
pub fn have_ended(hosts: &[ScenarioHost<'_>]) -> bool
    ensures { result ≡ all_ended hosts.now }
{
    for host in hosts {
        if !host.have_ended() {
            return false;
        }
    }
    true
}

/// Whether all their flows are closed.
pub fn are_closed(hosts: &[ScenarioHost<'_>]) -> bool
    ensures { result ≡ all_closed hosts.now }
{
    for host in hosts {
        if !host.host().is_over() {
            return false;
        }
    }
    true
}

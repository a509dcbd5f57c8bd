//! Where in a report one is, and where a line leads from there.

ghost use Rattle.std.specs.Prelude.{◌≡◌, ℕ, ◌==◌, ◌++◌, ◌∷◌, [], length, slice_get, List, MatchOption};
ghost use Rattle.report_lines.specs.Lines.{Line};
ghost use Rattle.report_lines.specs.Views.{seen_line};
ghost use Rattle.report_form.specs.Reports.{MayBegin};
ghost use Rattle.report_form.specs.Places as rules;
ghost use Rattle.report_form.specs.declared.place.Place.TheVariants as places;

use report_lines::ReportLine;

/// Where in a report one is. Hosts are counted from 0, and so are the flows of each.
#[derive(Clone, Copy, PartialEq, Eq, Debug)]
pub enum Place {
    /// Before the title.
    Start,
    /// Behind the title.
    Hosts,
    /// Behind the host's line, or one of its log.
    Log { host: usize },
    /// Behind the line that a flow begins with.
    Flow { host: usize, number: u32 },
    /// Behind an entry of it.
    Entries { host: usize, number: u32 },
    /// Behind its state.
    Bytes { host: usize, number: u32 },
    /// Behind the whole of it.
    Flows { host: usize, last: u32 },
    /// Behind the last line.
    Ended,
}

impl Place {
    /// Where a line leads; `None` where it may not come here. `addrs` are the addresses of the hosts.
    pub fn next(&self, addrs: &[u32], line: &ReportLine<'_>) -> Option<Place>
        ensures exact { result ≡ rules.next_place addrs.now self.now (seen_line line.now) }
        ensures beginning { (earlier : List Line) → rules.IsAt addrs.now earlier self.now
            → MatchOption result (MayBegin addrs.now (earlier ++ seen_line line.now ∷ []) → ⊥)
            (λ place. rules.IsAt addrs.now (earlier ++ seen_line line.now ∷ []) place) }
    {
        behind(*self, addrs, line)
    }
}

/// Where a line leads from a place.
#[tactic(auto, unfolding(crate::specs::Places::next_place))]
fn behind(place: Place, addrs: &[u32], line: &ReportLine<'_>) -> Option<Place>
    ensures { result ≡ rules.next_place addrs.now place (seen_line line.now) }
{
    match place {
        Place::Start => behind_nothing(line),
        Place::Hosts => host_at(addrs, None, line),
        Place::Log { host } => behind_log(addrs, host, line),
        Place::Flow { host, number } => behind_flow(host, number, line),
        Place::Entries { host, number } => behind_entry(host, number, line),
        Place::Bytes { host, number } => behind_state(host, number, line),
        Place::Flows { host, last } => flow_at(addrs, host, Some(last), line),
        Place::Ended => None,
    }
}

/// Only the title comes first.
#[tactic(auto, unfolding(crate::specs::Places::next_place))]
fn behind_nothing(line: &ReportLine<'_>) -> Option<Place>
    ensures { (addrs : List ℕ) → result ≡ rules.next_place addrs places.Start (seen_line line.now) }
{
    match line {
        ReportLine::Title => Some(Place::Hosts),
        _ => None,
    }
}

/// A line of the log goes on, or the first flow begins, or what follows flows.
#[tactic(auto, unfolding(crate::specs::Places::next_place))]
fn behind_log(addrs: &[u32], host: usize, line: &ReportLine<'_>) -> Option<Place>
    ensures { result ≡ rules.next_place addrs.now (places.Log host) (seen_line line.now) }
{
    if let ReportLine::Logged { .. } = line {
        return Some(Place::Log { host });
    }
    flow_at(addrs, host, None, line)
}

/// A flow has an entry.
#[tactic(auto, unfolding(crate::specs::Places::next_place))]
fn behind_flow(host: usize, number: u32, line: &ReportLine<'_>) -> Option<Place>
    ensures { (addrs : List ℕ) → result ≡ rules.next_place addrs (places.Flow host number) (seen_line line.now) }
{
    match line {
        ReportLine::Made(_) => Some(Place::Entries { host, number }),
        _ => None,
    }
}

/// Another entry comes, or the state.
#[tactic(auto, unfolding(crate::specs::Places::next_place))]
fn behind_entry(host: usize, number: u32, line: &ReportLine<'_>) -> Option<Place>
    ensures { (addrs : List ℕ) → result ≡ rules.next_place addrs (places.Entries host number) (seen_line line.now) }
{
    match line {
        ReportLine::Made(_) => Some(Place::Entries { host, number }),
        ReportLine::State { .. } => Some(Place::Bytes { host, number }),
        _ => None,
    }
}

/// What was read follows the state.
#[tactic(auto, unfolding(crate::specs::Places::next_place))]
fn behind_state(host: usize, number: u32, line: &ReportLine<'_>) -> Option<Place>
    ensures { (addrs : List ℕ) → result ≡ rules.next_place addrs (places.Bytes host number) (seen_line line.now) }
{
    match line {
        ReportLine::Read { .. } => Some(Place::Flows { host, last: number }),
        _ => None,
    }
}

/// Whether a host's number is the next one.
fn is_next_host(behind: Option<usize>, host: usize) -> bool
    ensures { result ≡ (host == rules.after behind) }
{
    match behind {
        Some(last) => host > 0 && host - 1 == last,
        None => host == 0,
    }
}

/// Whether a flow's number is the next one.
fn is_next_flow(behind: Option<u32>, number: u32) -> bool
    ensures { result ≡ (number == rules.after behind) }
{
    match behind {
        Some(last) => number > 0 && number - 1 == last,
        None => number == 0,
    }
}

/// Whether the host of this number has this address.
fn is_addr(addrs: &[u32], host: usize, addr: u32) -> bool
    ensures { result ≡ rules.is_addr (slice_get addrs.now host) addr }
{
    match addrs.get(host) {
        Some(own) => *own == addr,
        None => false,
    }
}

/// Where the next host may begin, or the report may end behind the last one.
fn host_at(addrs: &[u32], behind: Option<usize>, line: &ReportLine<'_>) -> Option<Place>
    ensures { result ≡ rules.host_at addrs.now (rules.after behind) (seen_line line.now) }
{
    match line {
        ReportLine::Host { host, addr } => {
            if !is_next_host(behind, *host) || !is_addr(addrs, *host, *addr) {
                return None;
            }
            Some(Place::Log { host: *host })
        }
        ReportLine::End { .. } => {
            if !is_next_host(behind, addrs.len()) {
                return None;
            }
            Some(Place::Ended)
        }
        _ => None,
    }
}

/// Where the next flow of a host may begin, or the next host, or the end.
fn flow_at(addrs: &[u32], host: usize, behind: Option<u32>, line: &ReportLine<'_>) -> Option<Place>
    ensures { result ≡ rules.flow_at addrs.now host (rules.after behind) (seen_line line.now) }
{
    let ReportLine::Begins { number, tuple, .. } = line else {
        return host_at(addrs, Some(host), line);
    };
    if !is_next_flow(behind, *number) || !is_addr(addrs, host, tuple.laddr) {
        return None;
    }
    Some(Place::Flow {
        host,
        number: *number,
    })
}

//! How far a report was read, and which line may come then.

ghost use Rattle.std.specs.Prelude.{◌≡◌};
ghost use Rattle.report_lines.specs.Views.{seen_line};
ghost use Rattle.report_picture.specs.Forms.{seen_said, Plain, Counts};
ghost use Rattle.report_picture.specs.Hosts.{seen_hosts};
ghost use Rattle.report_picture.specs.Stages as rules;

use crate::hosts::Hosts;
use crate::said::SaidLine;
use report_form::Place;
use report_lines::ReportLine;

/// How far a report was read: the place, as of a run's report, and whether a replay's counts have come.
#[derive(Clone, Copy)]
pub struct Stage {
    pub place: Place,
    pub counted: bool,
}

/// Whether it is the last line.
fn is_end(line: &ReportLine<'_>) -> bool
    ensures { result ≡ rules.is_end (seen_line line.now) }
{
    matches!(line, ReportLine::End { .. })
}

impl Stage {
    /// Nothing was read.
    pub fn start() -> Stage
        ensures { result ≡ rules.start }
    {
        Stage {
            place: Place::Start,
            counted: false,
        }
    }

    /// Where a line leads; `None` where it may not come here. `addrs` are the addresses of the hosts.
    #[tactic(auto, unfolding(crate::specs::Stages::next_stage))]
    fn next(&self, replay: bool, addrs: &[u32], said: &SaidLine<'_>) -> Option<Stage>
        ensures { result ≡ rules.next_stage replay addrs.now self.now (seen_said said.now) }
    {
        match said {
            SaidLine::Plain(line) => self.next_plain(replay, addrs, line),
            SaidLine::Counts => self.next_counts(replay, addrs),
        }
    }

    /// Where a line of a run's report leads.
    #[tactic(auto, unfolding(crate::specs::Stages::next_stage))]
    fn next_plain(&self, replay: bool, addrs: &[u32], line: &ReportLine<'_>) -> Option<Stage>
        ensures { result ≡ rules.next_stage replay addrs.now self.now (Plain (seen_line line.now)) }
    {
        let place = self.place.next(addrs, line)?;
        let counted = self.counted;
        if replay && is_end(line) != counted {
            return None;
        }
        Some(Stage { place, counted })
    }

    /// Where a replay's counts lead.
    #[tactic(auto, unfolding(crate::specs::Stages::next_stage))]
    fn next_counts(&self, replay: bool, addrs: &[u32]) -> Option<Stage>
        ensures { result ≡ rules.next_stage replay addrs.now self.now Counts }
    {
        if !replay || self.counted {
            return None;
        }
        let _ = self.place.next(addrs, &ReportLine::End { ticks: 0 })?;
        Some(Stage {
            place: self.place,
            counted: true,
        })
    }

    /// Where a line of a report leads that names these hosts; `None` where it may not come here.
    pub fn next_by(&self, hosts: &Hosts<'_>, said: &SaidLine<'_>) -> Option<Stage>
        ensures { result
            ≡ rules.next_stage hosts.now.replay (seen_hosts hosts.now).addrs self.now (seen_said said.now) }
    {
        self.next(hosts.replay, &hosts.addrs, said)
    }

    /// Whether the report has ended: that of a replay with its counts.
    pub fn is_over(&self, replay: bool) -> bool
        ensures { result ≡ rules.is_over replay self.now }
    {
        matches!(self.place, Place::Ended) && (!replay || self.counted)
    }
}

//! The second reading of a report: what it shows of both ends of a connection.

ghost use Rattle.std.specs.Prelude.{◌≡◌, ◌++◌, ◌∷◌, [], ℕ, List, fold, OnOk, IfOk, Option};
ghost use Rattle.report_lines.specs.Lines.{Line};
ghost use Rattle.report_lines.specs.Shown.{AreNames};
ghost use Rattle.report_lines.specs.Views.{seen_entry, seen_event, seen_line};
ghost use Rattle.trace_audit.specs.TextLines.{text_lines};
ghost use Rattle.report_picture.specs.Known.{after};
ghost use Rattle.report_picture.specs.Rows.{rows_of, logged_row as model_logged_row};
ghost use Rattle.report_picture.specs.Flows.{one};
ghost use Rattle.report_picture.specs.declared.flows.Flow as model_flows;
ghost use Rattle.report_picture.specs.Forms.{Said, IsOf, AreReport};
ghost use Rattle.report_picture.specs.Hosts.{seen_hosts};
ghost use Rattle.report_picture.specs.Pictures.{owner};
ghost use Rattle.report_picture.specs.Reading.{plain, made_for, rows_for, logged_for, IsShown, AreShown};

use crate::flows::{Above, Flow};
use crate::hosts::Hosts;
use crate::known::Known;
use crate::lines::next_line;
use crate::rows::{Owner, logged_row, push_rows};
use crate::said::{SaidLine, said_by};
use ladder_picture::Row;
use report_lines::{EntryLine, EventLine, ReportLine};
use std::alloc::{AllocError, Global};

/// What is shown of an end: the rows of its entries, what these tell, and the rows of its host's log.
#[derive(Drop)]
pub struct End {
    pub rows: Vec<Row>,
    pub known: Known,
    pub log: Vec<Row>,
}

/// Both ends of a connection, and what stands above the next line.
#[derive(Drop)]
pub struct Ends {
    pub above: Above,
    pub ours: End,
    pub theirs: End,
}

impl End {
    /// Nothing is shown.
    fn new(alloc: Global) -> End
        ensures { (flow : Option model_flows.Flow) (host : Option ℕ) → IsShown result flow host [] }
    {
        End {
            rows: Vec::new(alloc),
            known: Known::nothing(),
            log: Vec::new(alloc),
        }
    }

    /// Takes an entry of this flow. The error is want of memory.
    fn take_entry(&mut self, flow: &Flow, entry: &EntryLine<'_>) -> Result<(), AllocError>
        ensures rows { OnOk result (self.new.rows.items
            ≡ self.old.rows.items ++ rows_of (owner flow.now) self.old.known (seen_entry entry.now)) }
        ensures known { OnOk result (self.new.known ≡ after self.old.known (seen_entry entry.now)) }
        ensures log { OnOk result (self.new.log.items ≡ self.old.log.items) }
    {
        let owner = Owner {
            host: (flow.host % 4_294_967_296) as u32,
            flow: flow.number,
        };
        push_rows(&mut self.rows, owner, &self.known, entry)?;
        self.known = self.known.after(entry);
        Ok(())
    }

    /// Takes what a log tells. The error is want of memory.
    fn take_event(&mut self, tick: u32, event: &EventLine<'_>) -> Result<(), AllocError>
        ensures log { OnOk result
            (self.new.log.items ≡ self.old.log.items ++ one (model_logged_row tick (seen_event event.now))) }
        ensures rows { OnOk result (self.new.rows.items ≡ self.old.rows.items) }
        ensures known { OnOk result (self.new.known ≡ self.old.known) }
    {
        if let Some(row) = logged_row(tick, event) {
            self.log.push(row)?;
        }
        Ok(())
    }

    /// Takes a line: an entry where it is one of this flow, and what a log tells where it is that of this host. The
    /// error is want of memory.
    fn take(
        &mut self,
        flow: Option<Flow>,
        host: Option<usize>,
        above: &Above,
        line: &ReportLine<'_>,
    ) -> Result<(), AllocError>
        ensures rows { OnOk result (self.new.rows.items
            ≡ self.old.rows.items ++ rows_for flow self.old.known (made_for flow above.now (seen_line line.now))) }
        ensures known { OnOk result
            (self.new.known ≡ fold after self.old.known (made_for flow above.now (seen_line line.now))) }
        ensures log { OnOk result
            (self.new.log.items ≡ self.old.log.items ++ logged_for host above.now (seen_line line.now)) }
    {
        match line {
            ReportLine::Made(entry) => match flow {
                Some(flow) if above.is_in(flow.host, flow.number) => self.take_entry(&flow, entry),
                _ => Ok(()),
            },
            ReportLine::Logged { tick, event } if host == Some(above.host) => {
                self.take_event(*tick, event)
            }
            _ => Ok(()),
        }
    }
}

impl Ends {
    /// Nothing was read.
    fn new(alloc: Global) -> Ends
        ensures { (drawn : model_flows.Flow) (peer : Option ℕ) (other : Option model_flows.Flow)
            → AreShown result drawn peer other [] }
    {
        Ends {
            above: Above::nowhere(),
            ours: End::new(alloc),
            theirs: End::new(alloc),
        }
    }

    /// Takes a line. The error is want of memory.
    fn take(
        &mut self,
        drawn: &Flow,
        peer: Option<usize>,
        other: Option<Flow>,
        line: &ReportLine<'_>,
    ) -> Result<(), AllocError>
        ensures { OnOk result ((lines : List Line) → AreShown self.old drawn.now peer other lines
            → AreShown self.new drawn.now peer other (lines ++ seen_line line.now ∷ [])) }
    {
        self.ours
            .take(Some(*drawn), Some(drawn.host), &self.above, line)?;
        self.theirs.take(other, peer, &self.above, line)?;
        self.above = self.above.with_line(line);
        Ok(())
    }

    /// Takes a line of a text. The error is want of memory.
    fn take_text(
        &mut self,
        hosts: &Hosts<'_>,
        drawn: &Flow,
        peer: Option<usize>,
        other: Option<Flow>,
        text: &[u8],
    ) -> Result<(), AllocError>
        requires names { AreNames (seen_hosts hosts.now).names }
        ensures { OnOk result ((said : Said) → IsOf hosts.now.replay (seen_hosts hosts.now).names text.now said
            → (lines : List Line) → AreShown self.old drawn.now peer other lines
            → AreShown self.new drawn.now peer other (lines ++ plain (said ∷ []))) }
    {
        match said_by(hosts, text) {
            Some(SaidLine::Plain(line)) => self.take(drawn, peer, other, &line),
            _ => Ok(()),
        }
    }
}

/// What a report shows of a flow, and of its other end, where it has one. The error is want of memory.
pub fn ends_of(
    alloc: Global,
    hosts: &Hosts<'_>,
    report: &[u8],
    drawn: &Flow,
    peer: Option<usize>,
    other: Option<Flow>,
) -> Result<Ends, AllocError>
    requires names { AreNames (seen_hosts hosts.now).names }
    ensures { IfOk result (λ ends. (lines : List Line)
        → AreReport (seen_hosts hosts.now) (text_lines report.now) lines
        → AreShown ends drawn.now peer other lines) }
{
    let mut ends = Ends::new(alloc);
    let mut rest = report;
    while let Some((line, more)) = next_line(rest) {
        ends.take_text(hosts, drawn, peer, other, line)?;
        rest = more;
    }
    Ok(ends)
}

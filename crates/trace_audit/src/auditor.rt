//! The auditor of a report, line by line.

ghost use Rattle.std.specs.Prelude.{◌≡◌, ◌<◌, ◌≤◌, ◌+◌, ◌-◌, ◌^◌, ◌++◌, ◌∷◌, [], ℕ, length, map, List, Option, Some};
ghost use Rattle.std.specs.Prelude.{IfOk, IfSome, OnOk, true, false};
ghost use Rattle.std.specs.Option.{option_map};
ghost use Rattle.tas_model.specs.declared.entry.HostParams.{HostParams};
ghost use Rattle.tas_model.specs.Valid.{InRange};
ghost use Rattle.host_rounds.specs.Lists.{Each};
ghost use Rattle.report_lines.specs.Lines.{Line};
ghost use Rattle.report_lines.specs.Shown.{AreNames};
ghost use Rattle.report_lines.specs.Views.{seen_line};
ghost use Rattle.report_form.specs.Reports.{MayBegin};
ghost use Rattle.report_form.specs.declared.place.Place.TheVariants as places;
ghost use Rattle.trace_audit.specs.Forms.{addrs_of, IsSaid};
ghost use Rattle.trace_audit.specs.Shown.{shown};
ghost use Rattle.trace_audit.specs.Watching.{Comes, HasRead, HasTaken, IsJudgedBy, IsReady, IsBounded};
ghost use Rattle.trace_audit.specs.Watching.{verdict_of};

use crate::auditing::Verdict;
use crate::counts::{Counts, no_counts, with_line};
use crate::lines::without_end;
use crate::watch::Watch;
use report_form::Place;
use report_lines::{ReportLine, read_line};
use std::alloc::{AllocError, Global};
use tas_model::HostParams;

/// Judges a report line by line.
#[derive(Drop)]
pub struct Auditor {
    pub place: Place,
    pub counts: Counts,
    pub watch: Watch,
    /// The number of the first line up to which its flow is not right. No more is judged then.
    pub wrong: Option<usize>,
}

/// What a line of a text says; `None` where it is of no form.
fn line_of<'a>(names: &[&[u8]], text: &'a [u8]) -> Option<ReportLine<'a>>
    requires names { AreNames (map (λ n. n.now) names.now) }
    ensures found { IfSome result (λ l. IsSaid (map (λ n. n.now) names.now) text.now (seen_line l)) }
    ensures only { (said : Line) → IsSaid (map (λ n. n.now) names.now) text.now said
        → option_map seen_line result ≡ Some said }
{
    match without_end(text) {
        Some(front) => read_line(names, front),
        None => None,
    }
}

/// Judges a line of this number, where none before it was wrong; and answers which is the first that is wrong. The
/// error is want of memory.
fn judged(
    alloc: Global,
    hosts: &[HostParams],
    watch: &mut Watch,
    wrong: Option<usize>,
    number: usize,
    line: &ReportLine<'_>,
) -> Result<Option<usize>, AllocError>
    requires ranges { Each InRange hosts.now }
    requires ready { IsReady watch.old.flow }
    requires bound { IfSome wrong (λ n. n ≤ number) }
    ensures ready { OnOk result (IsReady watch.new.flow) }
    ensures bound { IfOk result (λ found. IfSome found (λ n. n ≤ number)) }
    ensures judged { IfOk result (λ found. (earlier : List Line) → IsJudgedBy hosts.now wrong watch.old earlier
        → Comes (length hosts.now) (shown earlier) (seen_line line.now) → number ≡ length earlier + 1
        → IsJudgedBy hosts.now found watch.new (earlier ++ seen_line line.now ∷ [])) }
{
    if wrong.is_some() {
        return Ok(wrong);
    }
    let right = watch.judge(alloc, hosts, line)?;
    if !right {
        return Ok(Some(number));
    }
    Ok(None)
}

impl Auditor {
    /// An auditor that has read nothing.
    pub fn new() -> Auditor
        ensures read { (hosts : List HostParams) → HasRead hosts result [] }
        ensures bounded { IsBounded result }
        ensures lines { result.counts.lines ≡ 0 }
    {
        Auditor {
            place: Place::Start,
            counts: no_counts(),
            watch: Watch::new(),
            wrong: None,
        }
    }

    /// Whether the report has ended.
    pub fn is_over(&self) -> bool
        ensures over { result ≡ true → self.now.place ≡ places.Ended }
        ensures before { result ≡ false → self.now.place ≡ places.Ended → ⊥ }
    {
        matches!(self.place, Place::Ended)
    }

    /// What it finds in a report behind so many lines.
    pub fn verdict(&self, before: usize) -> Verdict
        requires bounded { IsBounded self.now }
        requires few { before + self.now.counts.lines < 2 ^ 64 }
        ensures { result ≡ verdict_of before self.now.wrong self.now.counts }
    {
        match self.wrong {
            Some(number) => Verdict::Illegal {
                line: (before + number) as u64,
            },
            None => Verdict::Legal {
                flows: self.counts.flows as u64,
                entries: self.counts.entries as u64,
            },
        }
    }

    /// Takes the next line of a report; `false` where it is of no form or may not come. The error is want of memory.
    pub fn take(
        &mut self,
        alloc: Global,
        names: &[&[u8]],
        addrs: &[u32],
        hosts: &[HostParams],
        text: &[u8],
    ) -> Result<bool, AllocError>
        requires names { AreNames (map (λ n. n.now) names.now) }
        requires addrs { addrs.now ≡ addrs_of hosts.now }
        requires ranges { Each InRange hosts.now }
        requires bounded { IsBounded self.old }
        requires few { self.old.counts.lines < 2 ^ 64 - 1 }
        ensures bounded { OnOk result (IsBounded self.new) }
        ensures counted { IfOk result (λ right. right ≡ true → self.new.counts.lines ≡ self.old.counts.lines + 1) }
        ensures taken { IfOk result (λ right. right ≡ true → (earlier : List Line)
            → HasRead hosts.now self.old earlier
            → HasTaken (map (λ n. n.now) names.now) hosts.now self.new earlier text.now) }
        ensures refused { IfOk result (λ right. right ≡ false → (earlier : List Line)
            → HasRead hosts.now self.old earlier
            → (said : Line) → IsSaid (map (λ n. n.now) names.now) text.now said
            → MayBegin (addrs_of hosts.now) (earlier ++ said ∷ []) → ⊥) }
    {
        let Some(line) = line_of(names, text) else {
            return Ok(false);
        };
        let Some(place) = self.place.next(addrs, &line) else {
            return Ok(false);
        };
        let counts = with_line(&self.counts, &line);
        self.wrong = judged(
            alloc,
            hosts,
            &mut self.watch,
            self.wrong,
            counts.lines,
            &line,
        )?;
        self.place = place;
        self.counts = counts;
        Ok(true)
    }
}

//! The audit of a text: a scenario, a line `==` and a report.

ghost use Rattle.std.specs.Prelude.{◌≡◌, ◌<◌, ◌+◌, ◌-◌, ◌^◌, length, map, List, IfOk, IfErr};
ghost use Rattle.tas_model.specs.Valid.{InRange};
ghost use Rattle.host_rounds.specs.Lists.{Each};
ghost use Rattle.scenario_text.specs.declared.scenario.HostLine as model_lines;
ghost use Rattle.report_lines.specs.Shown.{AreNames};
ghost use Rattle.trace_audit.specs.TextLines.{text_lines, LacksMark};
ghost use Rattle.trace_audit.specs.Forms.{names_of as model_names_of, params_of as model_params_of};
ghost use Rattle.trace_audit.specs.Forms.{addrs_of as model_addrs_of};
ghost use Rattle.trace_audit.specs.Verdicts.{IsFound, IsUnfound, fault_in};
ghost use Rattle.trace_audit.specs.Watching.{HasHalves, IsReportVerdict, IsReportFault};

use crate::auditor::Auditor;
use crate::halves::{Halves, halves_of, line_count};
use crate::hosts::{addrs_of, names_of, params_of};
use crate::lines::next_line;
use scenario_ranges::what_is_read_is_in_range;
use scenario_text::{HostLine, ScenarioFault, read_scenario};
use std::alloc::Global;
use tas_model::HostParams;

/// What an audit finds.
#[derive(Clone, Copy, PartialEq, Eq, Debug)]
pub enum Verdict {
    /// So many flows with so many entries in all are right.
    Legal { flows: u64, entries: u64 },
    /// The least line up to which its flow is not right, counted from 1.
    Illegal { line: u64 },
}

/// Why a text has no verdict.
#[derive(Clone, Copy, PartialEq, Eq, Debug)]
pub enum AuditFault {
    OutOfMemory,
    /// The earliest line that is of no form or stands in a wrong place, counted from 1.
    Refused { line: u64 },
}

/// Judges a text that is a scenario, a line `==` and a report of a run of it (RFC 9293's endpoint in this profile): it
/// is legal where each flow's entries are a history of the endpoint, and its state and what was read are those that the
/// history leads to. A text of another form is refused at the earliest line at fault, before anything is judged.
pub fn audit(alloc: Global, text: &[u8]) -> Result<Verdict, AuditFault>
    ensures found { IfOk result (IsFound text.now) }
    ensures unfound { IfErr result (IsUnfound text.now) }
{
    match halves_of(text) {
        Some(halves) => audited(alloc, text, &halves),
        None => Err(unmarked(alloc, text)),
    }
}

/// Why a text without a line `==` has no verdict.
fn unmarked(alloc: Global, text: &[u8]) -> AuditFault
    requires { LacksMark (text_lines text.now) }
    ensures { IsUnfound text.now result }
{
    match read_scenario(alloc, text) {
        Ok(_) => AuditFault::Refused {
            line: (line_count(text) + 1) as u64,
        },
        Err(fault) => fault_of(fault),
    }
}

/// The fault of a scenario.
fn fault_of(fault: ScenarioFault) -> AuditFault
    ensures { result ≡ fault_in fault }
{
    match fault {
        ScenarioFault::OutOfMemory => AuditFault::OutOfMemory,
        ScenarioFault::Refused { line, .. } => AuditFault::Refused { line },
    }
}

/// Judges a text that has a line `==`.
fn audited(alloc: Global, text: &[u8], halves: &Halves<'_>) -> Result<Verdict, AuditFault>
    requires { HasHalves text.now halves.now }
    ensures found { IfOk result (IsFound text.now) }
    ensures unfound { IfErr result (IsUnfound text.now) }
{
    what_is_read_is_in_range();
    match read_scenario(alloc, halves.scenario) {
        Ok(scenario) => judged(
            alloc,
            scenario.hosts.as_slice(),
            halves.report,
            halves.count + 1,
        ),
        Err(fault) => Err(fault_of(fault)),
    }
}

/// Judges a report of these hosts, which stands behind so many lines.
fn judged(
    alloc: Global,
    hosts: &[HostLine],
    report: &[u8],
    before: usize,
) -> Result<Verdict, AuditFault>
    requires names { AreNames (model_names_of hosts.now) }
    requires ranges { Each InRange (model_params_of hosts.now) }
    requires few { before + length report.now < 2 ^ 64 - 1 }
    ensures found { IfOk result (IsReportVerdict hosts.now before (text_lines report.now)) }
    ensures unfound { IfErr result (IsReportFault hosts.now before (text_lines report.now)) }
{
    let Ok(names) = names_of(alloc, hosts) else {
        return Err(AuditFault::OutOfMemory);
    };
    let Ok(params) = params_of(alloc, hosts) else {
        return Err(AuditFault::OutOfMemory);
    };
    let Ok(addrs) = addrs_of(alloc, &params) else {
        return Err(AuditFault::OutOfMemory);
    };
    judged_by(alloc, &names, &addrs, &params, report, before)
}

/// Judges a report of hosts with these names, addresses and parameters.
fn judged_by(
    alloc: Global,
    names: &[&[u8]],
    addrs: &[u32],
    hosts: &[HostParams],
    report: &[u8],
    before: usize,
) -> Result<Verdict, AuditFault>
    requires names { AreNames (map (λ n. n.now) names.now) }
    requires addrs { addrs.now ≡ model_addrs_of hosts.now }
    requires ranges { Each InRange hosts.now }
    requires few { before + length report.now < 2 ^ 64 - 1 }
    ensures found { (lines : List model_lines.HostLine) → model_names_of lines ≡ map (λ n. n.now) names.now
        → model_params_of lines ≡ hosts.now → IfOk result (IsReportVerdict lines before (text_lines report.now)) }
    ensures unfound { (lines : List model_lines.HostLine) → model_names_of lines ≡ map (λ n. n.now) names.now
        → model_params_of lines ≡ hosts.now → IfErr result (IsReportFault lines before (text_lines report.now)) }
{
    let mut auditor = Auditor::new();
    let mut rest = report;
    while let Some((line, behind)) = next_line(rest) {
        let lines = auditor.counts.lines;
        match auditor.take(alloc, names, addrs, hosts, line) {
            Ok(true) => {}
            Ok(false) => {
                return Err(AuditFault::Refused {
                    line: (before + lines + 1) as u64,
                });
            }
            Err(_) => return Err(AuditFault::OutOfMemory),
        }
        rest = behind;
    }
    if !auditor.is_over() {
        return Err(AuditFault::Refused {
            line: (before + auditor.counts.lines + 1) as u64,
        });
    }
    Ok(auditor.verdict(before))
}

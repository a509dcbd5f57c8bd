//! The picture of a connection of a report.

ghost use Rattle.std.specs.Prelude.{◌≡◌, map, List, Some, IfOk, IfErr};
ghost use Rattle.report_lines.specs.Lines.{Line};
ghost use Rattle.report_lines.specs.Shown.{AreNames};
ghost use Rattle.trace_audit.specs.TextLines.{text_lines};
ghost use Rattle.ladder_picture.specs.Drawing.{drawing};
ghost use Rattle.ladder_picture.specs.Rungs.{rungs_of as model_rungs_of, with_log as model_with_log};
ghost use Rattle.report_picture.specs.Flows.{flows_in};
ghost use Rattle.report_picture.specs.Forms.{AreReport};
ghost use Rattle.report_picture.specs.Hosts.{seen_hosts};
ghost use Rattle.report_picture.specs.Pictures.{IsPicture, IsUndrawn, left_end, right_end, flow_text};
ghost use Rattle.report_picture.specs.Pictures as rules;

use crate::choice::{Wanted, chosen, other_end, peer_of};
use crate::ends::{End, Ends, ends_of};
use crate::flows::Flow;
use crate::hosts::{Hosts, hosts_of};
use crate::known::Known;
use crate::lines::line_count;
use crate::listing::flows_of;
use ladder_picture::{EndName, Look, Row, put_drawing, rungs_of, with_log};
use std::alloc::{AllocError, Global};
use tas_num::Seq;

/// Why there is no picture.
#[derive(Clone, Copy, PartialEq, Eq, Debug)]
pub enum PictureFault {
    /// There was no memory.
    OutOfMemory,
    /// The earliest line that is of no form or stands in a wrong place, counted from 1.
    Refused { line: u64 },
    /// The report has not the flow that is wanted. The line is the one past the last.
    Absent { line: u64 },
}

/// The name of a host, or nothing where it is not in the report.
fn name_of<'a>(names: &[&'a [u8]], host: Option<usize>) -> &'a [u8]
    ensures { result.now ≡ rules.peer_name (map (λ n. n.now) names.now) host }
{
    let Some(host) = host else {
        return b"";
    };
    match names.get(host) {
        Some(name) => *name,
        None => b"",
    }
}

/// The number that those of the other end are told from: its own first one, or the one that came.
fn first_of_peer(ours: &Known, theirs: &Known) -> Seq
    ensures { result ≡ rules.first_of_peer ours.now theirs.now }
{
    if theirs.begun {
        return theirs.iss;
    }
    ours.peer.unwrap_or(Seq(0))
}

/// How the ladder of two ends is drawn.
fn look_of(absolute: bool, peer: Option<usize>, ends: &Ends) -> Look
    ensures { result ≡ rules.look absolute peer ends.now.ours.known ends.now.theirs.known }
{
    if absolute {
        return Look {
            both: peer.is_some(),
            left: Seq(0),
            right: Seq(0),
        };
    }
    Look {
        both: peer.is_some(),
        left: ends.ours.known.iss,
        right: first_of_peer(&ends.ours.known, &ends.theirs.known),
    }
}

/// The opening number of a flow.
fn number_of(flow: Option<Flow>) -> Option<u32>
    ensures { result ≡ rules.number_of flow }
{
    match flow {
        Some(flow) => Some(flow.number),
        None => None,
    }
}

/// The rows of an end, with those of its log that tell of frames of the other one: of this host's flow. The error is
/// want of memory.
fn rows_of(
    alloc: Global,
    end: &End,
    host: Option<usize>,
    flow: Option<u32>,
) -> Result<Vec<Row>, AllocError>
    ensures { IfOk result (λ rows. rows.items
        ≡ model_with_log end.now.rows.items end.now.log.items (rules.or_0 host) flow) }
{
    with_log(alloc, &end.rows, &end.log, host.unwrap_or(0), flow)
}

/// The picture of a flow and its other end. The error is want of memory.
fn drawn_ends(
    alloc: Global,
    names: &[&[u8]],
    absolute: bool,
    drawn: &Flow,
    peer: Option<usize>,
    other: Option<Flow>,
    ends: &Ends,
) -> Result<Vec<u8>, AllocError>
    ensures { IfOk result (λ out. out.items
        ≡ drawing (rules.look absolute peer ends.now.ours.known ends.now.theirs.known) absolute
        (left_end (map (λ n. n.now) names.now) drawn.now) (right_end (map (λ n. n.now) names.now) peer drawn.now)
        (model_rungs_of
        (model_with_log ends.now.ours.rows.items ends.now.ours.log.items (rules.or_0 peer) (rules.number_of other))
        (model_with_log ends.now.theirs.rows.items ends.now.theirs.log.items drawn.now.host
        (Some drawn.now.number)))) }
{
    let ours = rows_of(alloc, &ends.ours, peer, number_of(other))?;
    let theirs = rows_of(alloc, &ends.theirs, Some(drawn.host), Some(drawn.number))?;
    let rungs = rungs_of(alloc, &ours, &theirs)?;
    let left = EndName {
        name: name_of(names, Some(drawn.host)),
        addr: drawn.tuple.laddr,
        port: drawn.tuple.lport,
    };
    let right = EndName {
        name: name_of(names, peer),
        addr: drawn.tuple.raddr,
        port: drawn.tuple.rport,
    };
    let mut out = Vec::new(alloc);
    let look = look_of(absolute, peer, ends);
    put_drawing(alloc, &mut out, &look, absolute, &left, &right, &rungs)?;
    Ok(out)
}

/// The picture of a flow of a report, with its other end where that is in the report, too. The error is want of memory.
fn drawn_flow(
    alloc: Global,
    hosts: &Hosts<'_>,
    report: &[u8],
    flows: &[Flow],
    drawn: &Flow,
    absolute: bool,
) -> Result<Vec<u8>, AllocError>
    requires names { AreNames (seen_hosts hosts.now).names }
    ensures { IfOk result (λ out. (lines : List Line)
        → AreReport (seen_hosts hosts.now) (text_lines report.now) lines → flows.now ≡ flows_in lines
        → out.items ≡ flow_text (seen_hosts hosts.now) absolute drawn.now lines) }
{
    let peer = peer_of(hosts.replay, &hosts.addrs, drawn);
    let other = other_end(peer, drawn, flows);
    let ends = ends_of(alloc, hosts, report, drawn, peer, other)?;
    drawn_ends(alloc, &hosts.names, absolute, drawn, peer, other, &ends)
}

/// The picture of a connection of a report: of the flow that is wanted, with its other end where that is in the report,
/// too. Numbers are relative to the first ones of each side, but where `absolute` is true. A text that is no report is
/// refused at the earliest line at fault, before a flow is looked for.
pub fn picture(
    alloc: Global,
    report: &[u8],
    wanted: Wanted<'_>,
    absolute: bool,
) -> Result<Vec<u8>, PictureFault>
    ensures drawn { IfOk result (λ out. IsPicture report.now wanted.entry absolute out.items) }
    ensures undrawn { IfErr result (IsUndrawn report.now wanted.entry) }
{
    let Ok(hosts) = hosts_of(alloc, report) else {
        return Err(PictureFault::OutOfMemory);
    };
    let flows = flows_of(alloc, &hosts, report)?;
    let Some(drawn) = chosen(&hosts.names, wanted, &flows) else {
        return Err(PictureFault::Absent {
            line: line_count(report) as u64 + 1,
        });
    };
    match drawn_flow(alloc, &hosts, report, &flows, &drawn, absolute) {
        Ok(out) => Ok(out),
        Err(_) => Err(PictureFault::OutOfMemory),
    }
}

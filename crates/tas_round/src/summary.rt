//! The summary of a run of many clients is written.

ghost use Rattle.std.specs.Prelude.{◌≡◌, ◌+◌, ◌≤◌, ◌^◌, [], map, length, count_by, bytes_eq, codes, None, IfSome, OnOk};
ghost use Rattle.tas_model.specs.Outputs.{bytes_read};
ghost use Rattle.tas_runs.specs.Summary as texts;
ghost use Rattle.run_texts.specs.Frames.{history_of};
ghost use Rattle.run_texts.specs.Writes.{Writes};
ghost use Rattle.tas_round.specs.Runs.{host_in, log_in};
ghost use Rattle.tas_round.specs.Written.{WroteText};

use crate::logs::{HostRun, HostRuns, RunLog};
use flow_state::FlowHistory;
use run_texts::{Summary, Writer, write_summary_lines};
use std::alloc::Global;
use tas_model::Reason;
use tas_num::{IoFault, Sink};

/// Writes the summary of a run with so many clients. All memory is taken before the first write; want of memory is also
/// answered where 2^128 bytes or more were read, all of which the log holds.
pub fn write_summary<K: Sink>(
    alloc: Global,
    clients: u32,
    log: &RunLog,
    sink: &mut K,
) -> Result<(), IoFault>
    ensures { WroteText (K.state sink.old) result (K.state sink.new) (texts.summary clients (log_in log.now)) }
{
    let Some(summary) = summary_of(clients, log) else {
        return Err(IoFault::OutOfMemory);
    };
    let Ok(mut writer) = Writer::new(alloc) else {
        return Err(IoFault::OutOfMemory);
    };
    put_summary(&mut writer, sink, summary)
}

/// Writes a summary by way of a writer, and then all that waits in it.
fn put_summary<K: Sink>(writer: &mut Writer, sink: &mut K, summary: Summary) -> Result<(), IoFault>
    ensures writes { Writes (K.state sink.old) writer.old result (K.state sink.new) writer.new
        (texts.summary_lines summary.clients summary.read summary.closed) }
    ensures empty { OnOk result (writer.new ≡ []) }
{
    write_summary_lines(writer, sink, summary)?;
    writer.finish(sink)
}

/// What the summary of a run counts, where the bytes that were read are fewer than 2^128.
fn summary_of(clients: u32, log: &RunLog) -> Option<Summary>
    ensures some { IfSome result
        (λ s. texts.summary_lines s.clients s.read s.closed ≡ texts.summary clients (log_in log.now)) }
    ensures none { result ≡ None
        → 2 ^ 128 ≤ length (texts.all_read (texts.flows_on (codes "b") (log_in log.now).hosts)) }
{
    let read = count_all(flows_on(b"b", &log.hosts))?;
    let closed = count_done(flows_on(b"a", &log.hosts));
    Some(Summary {
        clients,
        read,
        closed: closed as u64,
    })
}

/// The flows of the host with this name, none where there is no such host.
fn flows_on<'a>(name: &[u8], hosts: &'a HostRuns) -> &'a [FlowHistory]
    ensures { map history_of result.now ≡ texts.flows_on name.now (map host_in hosts.now) }
{
    for i in 0..hosts.len() {
        let host = hosts.item(i);
        if is_named(host, name) {
            return host.flows.as_slice();
        }
    }
    &[]
}

/// Whether the host has this name.
fn is_named(host: &HostRun, name: &[u8]) -> bool
    ensures { result ≡ bytes_eq host.now.name name.now }
{
    host.name.as_slice() == name
}

/// How many bytes were read in these flows, where they are fewer than 2^128.
fn count_all(flows: &[FlowHistory]) -> Option<u128>
    ensures some { IfSome result (λ count. count ≡ length (texts.all_read (map history_of flows.now))) }
    ensures none { result ≡ None → 2 ^ 128 ≤ length (texts.all_read (map history_of flows.now)) }
{
    let mut count = 0u128;
    for flow in flows {
        let sum = add_read(count, flow)?;
        count = sum;
    }
    Some(count)
}

/// The count and how many bytes were read in the flow, where that is below 2^128.
fn add_read(count: u128, flow: &FlowHistory) -> Option<u128>
    ensures some { IfSome result (λ sum. sum ≡ count + length (bytes_read flow.now.entries)) }
    ensures none { result ≡ None → 2 ^ 128 ≤ count + length (bytes_read flow.now.entries) }
{
    count.checked_add(flow.read_count())
}

/// How many of these flows were closed by both of their ends.
fn count_done(flows: &[FlowHistory]) -> usize
    ensures { result ≡ count_by texts.is_done (map history_of flows.now) }
{
    flows.iter().filter(|flow| is_done(flow)).count()
}

/// Whether the flow was closed by both of its ends.
fn is_done(flow: &FlowHistory) -> bool
    ensures { result ≡ texts.is_done (history_of flow.now) }
{
    matches!(flow.reason(), Some(Reason::Done))
}

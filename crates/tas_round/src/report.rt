//! The report of a run is written.

ghost use Rattle.std.specs.Prelude.{◌≡◌, ℕ, ◌≤◌, ◌++◌, ◌∷◌, [], List, map, length, codes, false, Err, OnOk, OnErr};
ghost use Rattle.std.specs.Prelude.{IfOk, if◌then◌else◌};
ghost use Rattle.host_rounds.specs.Lists.{Each};
ghost use Rattle.log_ranges.specs.Ranges.{LineFits, FlowFits, HostFits, Fits};
ghost use Rattle.tas_runs.specs.Report.{report, line, names_of, host_text, hosts_text, log_text, flows_text};
ghost use Rattle.tas_runs.specs.Report.{flow_lines, counts_text, addr_text};
ghost use Rattle.run_texts.specs.Frames.{history_of};
ghost use Rattle.run_texts.specs.Writes.{Writes};
ghost use Rattle.tas_round.specs.Runs.{host_in, log_in};
ghost use Rattle.tas_round.specs.Written.{WroteText};

use crate::logs::{FlowList, HostRun, HostRuns, RunLog};
use flow_state::FlowHistory;
use run_texts::{
    Counts, Writer, write_counts, write_end, write_flow, write_host, write_log, write_title,
};
use std::alloc::{AllocError, Global};
use tas_num::{IoFault, Sink};

/// Writes the report of a run. All memory is taken before the first write.
pub fn write_report<K: Sink>(alloc: Global, log: &RunLog, sink: &mut K) -> Result<(), IoFault>
    ensures writes { WroteText (K.state sink.old) result (K.state sink.new) (report (log_in log.now)) }
    // All numbers that were written are in the ranges of their fields.
    ensures fits { OnOk result (Fits (log_in log.now)) }
{
    let Ok(names) = lent_names(alloc, &log.hosts) else {
        return Err(IoFault::OutOfMemory);
    };
    let Ok(mut writer) = Writer::new(alloc) else {
        return Err(IoFault::OutOfMemory);
    };
    put_whole(&mut writer, sink, &names, log)
}

/// The names of the hosts, in their order. The error is want of memory.
fn lent_names<'a>(alloc: Global, hosts: &'a HostRuns) -> Result<Vec<&'a [u8]>, AllocError>
    ensures { IfOk result (λ names. map (λ n. n.now) names.items ≡ names_of (map host_in hosts.now)) }
{
    let mut names = Vec::new(alloc);
    for i in 0..hosts.len() {
        lend_name(&mut names, hosts.item(i))?;
    }
    Ok(names)
}

/// Adds the name of a host. The error is want of memory.
fn lend_name<'a>(names: &mut Vec<&'a [u8]>, host: &'a HostRun) -> Result<(), AllocError>
    ensures { OnOk result (map (λ n. n.now) names.new.items ≡ map (λ n. n.now) names.old.items ++ host.now.name ∷ []) }
{
    match names.push(host.name.as_slice()) {
        Ok(()) => Ok(()),
        Err(_) => Err(AllocError),
    }
}

/// Writes the report by way of a writer, and then all that waits in it.
fn put_whole<K: Sink>(
    writer: &mut Writer,
    sink: &mut K,
    names: &[&[u8]],
    log: &RunLog,
) -> Result<(), IoFault>
    requires { map (λ n. n.now) names.now ≡ names_of (map host_in log.now.hosts) }
    ensures writes { Writes (K.state sink.old) writer.old result (K.state sink.new) writer.new
        (report (log_in log.now)) }
    ensures empty { OnOk result (writer.new ≡ []) }
    ensures fits { OnOk result (Fits (log_in log.now)) }
{
    put_report(writer, sink, names, log)?;
    writer.finish(sink)
}

/// Writes the report by way of a writer. `names` has the names of the hosts.
#[tactic(auto, unfolding(tas_runs::specs::Report::report))]
fn put_report<K: Sink>(
    writer: &mut Writer,
    sink: &mut K,
    names: &[&[u8]],
    log: &RunLog,
) -> Result<(), IoFault>
    requires { map (λ n. n.now) names.now ≡ names_of (map host_in log.now.hosts) }
    ensures writes { Writes (K.state sink.old) writer.old result (K.state sink.new) writer.new
        (report (log_in log.now)) }
    ensures fits { OnOk result (Fits (log_in log.now)) }
{
    write_title(writer, sink, log.replay)?;
    put_hosts(writer, sink, names, &log.hosts)?;
    put_counts(writer, sink, log)?;
    write_end(writer, sink, log.ticks)
}

/// Writes the lines of all hosts.
fn put_hosts<K: Sink>(
    writer: &mut Writer,
    sink: &mut K,
    names: &[&[u8]],
    hosts: &HostRuns,
) -> Result<(), IoFault>
    requires { map (λ n. n.now) names.now ≡ names_of (map host_in hosts.now) }
    ensures writes { Writes (K.state sink.old) writer.old result (K.state sink.new) writer.new
        (hosts_text (names_of (map host_in hosts.now)) (map host_in hosts.now)) }
    ensures fits { OnOk result (Each HostFits (map host_in hosts.now)) }
{
    for i in 0..hosts.len() {
        put_host(writer, sink, names, hosts.item(i))?;
    }
    Ok(())
}

/// Writes the lines of a host: its name and address, its log, and its flows.
fn put_host<K: Sink>(
    writer: &mut Writer,
    sink: &mut K,
    names: &[&[u8]],
    host: &HostRun,
) -> Result<(), IoFault>
    ensures writes { Writes (K.state sink.old) writer.old result (K.state sink.new) writer.new
        (host_text (map (λ n. n.now) names.now) (host_in host.now)) }
    ensures fits { OnOk result (HostFits (host_in host.now)) }
{
    // What is read is in the range of its type.
    let _addr = host.addr;
    put_name(writer, sink, host)?;
    put_log(writer, sink, names, host)?;
    put_flows(writer, sink, names, &host.flows)
}

/// Writes the name and the address of a host.
fn put_name<K: Sink>(writer: &mut Writer, sink: &mut K, host: &HostRun) -> Result<(), IoFault>
    ensures { Writes (K.state sink.old) writer.old result (K.state sink.new) writer.new
        (line (codes "host " ++ host.now.name ++ codes " " ++ addr_text host.now.addr)) }
{
    write_host(writer, sink, host.name.as_slice(), host.addr)
}

/// Writes the log of a host.
fn put_log<K: Sink>(
    writer: &mut Writer,
    sink: &mut K,
    names: &[&[u8]],
    host: &HostRun,
) -> Result<(), IoFault>
    ensures writes { Writes (K.state sink.old) writer.old result (K.state sink.new) writer.new
        (log_text (map (λ n. n.now) names.now) host.now.log) }
    ensures fits { OnOk result (Each LineFits host.now.log) }
{
    write_log(writer, sink, names, host.log.stretches())
}

/// Writes the lines of all flows of a host.
fn put_flows<K: Sink>(
    writer: &mut Writer,
    sink: &mut K,
    names: &[&[u8]],
    flows: &FlowList,
) -> Result<(), IoFault>
    ensures writes { Writes (K.state sink.old) writer.old result (K.state sink.new) writer.new
        (flows_text (map (λ n. n.now) names.now) 0 (map history_of flows.now)) }
    ensures fits { OnOk result (Each FlowFits (map history_of flows.now)) }
{
    for i in 0..flows.len() {
        put_flow(writer, sink, names, i, flows.item(i))?;
    }
    Ok(())
}

/// Writes the lines of one flow.
fn put_flow<K: Sink>(
    writer: &mut Writer,
    sink: &mut K,
    names: &[&[u8]],
    i: usize,
    flow: &FlowHistory,
) -> Result<(), IoFault>
    ensures writes { Writes (K.state sink.old) writer.old result (K.state sink.new) writer.new
        (flow_lines (map (λ n. n.now) names.now) i (history_of flow.now)) }
    ensures fits { OnOk result (FlowFits (history_of flow.now)) }
{
    write_flow(writer, sink, names, i as u64, flow)
}

/// Writes the counts of the capture, where the run replays one.
fn put_counts<K: Sink>(writer: &mut Writer, sink: &mut K, log: &RunLog) -> Result<(), IoFault>
    ensures { Writes (K.state sink.old) writer.old result (K.state sink.new) writer.new
        (if log.now.replay then counts_text (log_in log.now) else []) }
{
    if !log.replay {
        return Ok(());
    }
    let counts = Counts {
        records: u64::from(log.records),
        frames: u64::from(log.frames),
        passed: u64::from(log.passed),
        refused: u64::from(log.refused),
    };
    write_counts(writer, sink, counts)
}

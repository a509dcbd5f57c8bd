//! The frames of a run are written as a capture.

ghost use Rattle.std.specs.Prelude.{◌≡◌, ℕ, ◌≤◌, ◌++◌, ◌∷◌, [], List, map, false, Err, OnOk, OnErr, IfOk};
ghost use Rattle.tas_num.specs.Captures.{file_header};
ghost use Rattle.host_rounds.specs.Lists.{Each};
ghost use Rattle.tas_runs.specs.SentFrames.{capture, ticks_from};
ghost use Rattle.run_texts.specs.Frames.{seen_host};
ghost use Rattle.run_texts.specs.Writes.{Writes};
ghost use Rattle.local_host.specs.Live.{IsLegal};
ghost use Rattle.tas_round.specs.Runs.{host_in, log_in, unnamed_in, AreLegal, AreSentBy};
ghost use Rattle.tas_round.specs.Written.{WroteText};

use crate::logs::{HostRun, HostRuns, RunLog};
use run_texts::{
    HostFrames, SentFrames, Writer, segments_have_room, write_capture_header, write_frames,
};
use std::alloc::{AllocError, Global};
use tas_num::{IoFault, Sink};

/// Writes the frames that a run sent, as a capture with a record for each. All memory is taken before the first write.
pub fn write_capture<K: Sink>(alloc: Global, log: &RunLog, sink: &mut K) -> Result<(), IoFault>
    ensures { WroteText (K.state sink.old) result (K.state sink.new) (capture (log_in log.now)) }
{
    let Ok(mut sent) = sent_by(alloc, &log.hosts) else {
        return Err(IoFault::OutOfMemory);
    };
    let Ok(mut writer) = Writer::new(alloc) else {
        return Err(IoFault::OutOfMemory);
    };
    put_whole(&mut writer, sink, log, &mut sent)
}

/// The frames that the hosts sent, by their tick. The error is want of memory.
fn sent_by(alloc: Global, hosts: &HostRuns) -> Result<SentFrames<'_>, AllocError>
    ensures { IfOk result (AreSentBy hosts.now) }
{
    let frames = lent_frames(alloc, hosts)?;
    // Why each of them has room in a packet.
    segments_have_room();
    SentFrames::of_hosts(alloc, &frames)
}

/// Writes the capture by way of a writer, and then all that waits in it.
fn put_whole<K: Sink>(
    writer: &mut Writer,
    sink: &mut K,
    log: &RunLog,
    sent: &mut SentFrames<'_>,
) -> Result<(), IoFault>
    requires { AreSentBy log.now.hosts sent.old }
    ensures writes { Writes (K.state sink.old) writer.old result (K.state sink.new) writer.new
        (capture (log_in log.now)) }
    ensures empty { OnOk result (writer.new ≡ []) }
{
    put_capture(writer, sink, log, sent)?;
    writer.finish(sink)
}

/// Writes the capture by way of a writer: its header, and then the records.
#[tactic(auto, unfolding(tas_runs::specs::SentFrames::capture))]
fn put_capture<K: Sink>(
    writer: &mut Writer,
    sink: &mut K,
    log: &RunLog,
    sent: &mut SentFrames<'_>,
) -> Result<(), IoFault>
    requires { AreSentBy log.now.hosts sent.old }
    ensures { Writes (K.state sink.old) writer.old result (K.state sink.new) writer.new (capture (log_in log.now)) }
{
    write_capture_header(writer, sink)?;
    put_frames(writer, sink, log.ticks, &log.hosts, sent)
}

/// Writes the frames that the hosts sent in the first `ticks` ticks.
fn put_frames<K: Sink>(
    writer: &mut Writer,
    sink: &mut K,
    ticks: u32,
    hosts: &HostRuns,
    sent: &mut SentFrames<'_>,
) -> Result<(), IoFault>
    requires { AreSentBy hosts.now sent.old }
    ensures { Writes (K.state sink.old) writer.old result (K.state sink.new) writer.new
        (ticks_from ticks 0 (map host_in hosts.now)) }
{
    let _hosts = hosts.len();
    write_frames(writer, sink, ticks, sent)
}

/// What each host sent. The error is want of memory.
fn lent_frames<'a>(alloc: Global, hosts: &'a HostRuns) -> Result<Vec<HostFrames<'a>>, AllocError>
    ensures hosts { IfOk result (λ frames. map seen_host frames.items ≡ map unnamed_in hosts.now) }
    ensures legal { IfOk result (λ frames. Each AreLegal (map seen_host frames.items)) }
{
    let mut frames = Vec::new(alloc);
    for i in 0..hosts.len() {
        frames.push(frames_of(hosts.item(i)))?;
    }
    Ok(frames)
}

/// What a host sent.
fn frames_of<'a>(host: &'a HostRun) -> HostFrames<'a>
    ensures host { seen_host result ≡ unnamed_in host.now }
    ensures legal { Each IsLegal host.now.flows }
{
    HostFrames {
        flows: host.flows.as_slice(),
        log: host.log.stretches(),
    }
}

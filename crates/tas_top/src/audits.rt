//! The word `audit`: the input is read and audited, and its verdict told.

ghost use Rattle.std.specs.Prelude.{◌≡◌, ◌⊎◌, ◌++◌, [], codes, decimal, Result, IfOk, IfErr, IfSome, OnOk};
ghost use Rattle.tas_num.specs.Streams.{Wrote};
ghost use Rattle.tas_num.specs.declared.outside.IoFault as code;
ghost use Rattle.trace_audit.specs.Verdicts.{IsFound};
ghost use Rattle.tas_top.specs.Audits.{ReadsWhole, Unaudited, audited, End, status_at, EndsSo, IsAuditable};
ghost use Rattle.tas_top.specs.Audits.{legal_line, illegal_line};
ghost use Rattle.tas_top.specs.Stops.{status_of};
ghost use Rattle.tas_top.specs.Telling.{numbered, IsTold};

use crate::input::read_all;
use crate::stop::Stop;
use crate::telling::{put, put_numbered, tell};
use itoa::Buffer;
use std::alloc::Global;
use tas_num::{IoFault, Sink, Source};
use trace_audit::{AuditFault, Verdict, audit};

/// The most bytes that the input may have: 64 MiB.
const MOST_BYTES: u32 = 67_108_864;

/// Answers the word `audit`, and gives the status that the program ends with: it reads a scenario, a line `==` and a
/// report of a run, and judges the report. Where each flow is right it writes a line that says so; else, or where it
/// stops, a fault line goes to `faults`, and if that fails, the status stays. It starts no threads.
pub fn tas_audit<S: Source, K: Sink, F: Sink>(
    alloc: Global,
    source: &mut S,
    sink: &mut K,
    faults: &mut F,
) -> u8
    // Each status has its cause, and says what became of the streams: 0 all is legal, 9 this line is the first that is
    // not, 3 the earliest line at fault, 4 the source failed, 7 it has more than 64 MiB, 5 the sink failed, 6 memory.
    ensures ends { (end : End) × (result ≡ status_at end)
        × EndsSo (audited (S.state source.old) (S.state source.new) (K.state sink.old) (K.state sink.new)
        (F.state faults.old) (F.state faults.new)) end }
    // A right input gives status 0 or 9, or want of memory, where no stream fails.
    ensures complete { IsAuditable (audited (S.state source.old) (S.state source.new) (K.state sink.old)
        (K.state sink.new) (F.state faults.old) (F.state faults.new))
        → (result ≡ 0) ⊎ ((result ≡ 9) ⊎ (result ≡ 6)) }
{
    answered(alloc, source, sink, faults)
}

/// The same, without what follows from it.
fn answered<S: Source, K: Sink, F: Sink>(
    alloc: Global,
    source: &mut S,
    sink: &mut K,
    faults: &mut F,
) -> u8
    ensures { (end : End) × (result ≡ status_at end)
        × EndsSo (audited (S.state source.old) (S.state source.new) (K.state sink.old) (K.state sink.new)
        (F.state faults.old) (F.state faults.new)) end }
{
    match found_in(alloc, source) {
        Ok(Verdict::Legal { flows, entries }) => match put_legal(sink, flows, entries) {
            Ok(()) => 0,
            Err(IoFault::Failed) => stopped(faults, Stop::Write),
            Err(IoFault::OutOfMemory) => stopped(faults, Stop::Memory),
        },
        Ok(Verdict::Illegal { line }) => {
            tell_illegal(faults, line);
            9
        }
        Err(stop) => stopped(faults, stop),
    }
}

/// What is found in the input that the source has.
fn found_in<S: Source>(alloc: Global, source: &mut S) -> Result<Verdict, Stop>
    ensures found { IfOk result (λ v. IfSome (S.state source.old).left (λ b. IsFound b v)) }
    ensures read { OnOk result (ReadsWhole (S.state source.old) (S.state source.new)) }
    ensures cause { IfErr result (Unaudited (S.state source.old) (S.state source.new)) }
{
    let bytes = read_all(alloc, MOST_BYTES, source)?;
    match audit(alloc, &bytes) {
        Ok(verdict) => Ok(verdict),
        Err(AuditFault::OutOfMemory) => Err(Stop::Memory),
        Err(AuditFault::Refused { line }) => Err(Stop::Line { number: line }),
    }
}

/// Tells of a stop, and answers its status.
fn stopped<F: Sink>(faults: &mut F, stop: Stop) -> u8
    ensures status { result ≡ status_of stop }
    ensures told { IsTold stop (F.state faults.old) (F.state faults.new) }
{
    tell(faults, stop);
    stop.status()
}

/// Tells of the first line that is not right. Where that can't be written, the status alone tells.
fn tell_illegal<F: Sink>(faults: &mut F, line: u64)
    ensures { (r : Result (Unit {0}) code.IoFault)
        × Wrote (F.state faults.old) r (F.state faults.new) (illegal_line line) [] }
{
    let _ = put_numbered(faults, "tas: illegal line ", line);
}

/// Writes the line that says that so many flows and entries are right.
fn put_legal<K: Sink>(sink: &mut K, flows: u64, entries: u64) -> Result<(), IoFault>
    ensures { Wrote (K.state sink.old) result (K.state sink.new) (legal_line flows entries) [] }
{
    put(sink, "audit legal ")?;
    put_counts(sink, flows, entries)
}

/// Writes two numbers and the end of the line.
fn put_counts<K: Sink>(sink: &mut K, flows: u64, entries: u64) -> Result<(), IoFault>
    ensures { Wrote (K.state sink.old) result (K.state sink.new)
        (decimal flows ++ (codes " " ++ numbered entries)) [] }
{
    let mut digits = Buffer::new();
    put(sink, digits.format(flows))?;
    put_numbered(sink, " ", entries)
}

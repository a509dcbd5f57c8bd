//! The top call: words, input, run and output.

ghost use Rattle.std.specs.Prelude.{◌≡◌, ◌≢◌, ◌⊎◌, [], map, string_bytes, true, false, if◌then◌else◌, Ok, Err, IfOk};
ghost use Rattle.std.specs.Prelude.{IfErr, OnOk, OnErr, Result, None, is_some};
ghost use Rattle.std.specs.Io.KnownBytes.{Keeps};
ghost use Rattle.tas_num.specs.Streams.{Wrote};
ghost use Rattle.log_ranges.specs.Ranges.{Fits};
ghost use Rattle.tas_round.specs.Runs.{log_in};
ghost use Rattle.tas_round.specs.Written.{WroteText};
ghost use Rattle.tas_round.specs.declared.logs.RunLog as code;
ghost use Rattle.tas_top.specs.Runs.{given, IsRun};
ghost use Rattle.tas_top.specs.Answers.{HasCause, IsOrderly};
ghost use Rattle.tas_top.specs.Audits.{audited, IsAudit};
ghost use Rattle.tas_top.specs.Jobs.{IsFit, IsLogOf, Makes};
ghost use Rattle.tas_top.specs.Stops.{Cause, status_of, writes_nothing, Unrun, Unwritten, Unwrites, WordsFirst};
ghost use Rattle.tas_top.specs.Stops.{Untouched};
ghost use Rattle.tas_top.specs.Stops.{ReadsFor, ReadsPast, ReadBefore, IsOfMade, SourceCalm, SinkCalm};
ghost use Rattle.tas_top.specs.Telling.{IsTold};
ghost use Rattle.tas_top.specs.Outputs.{output, text_of, WritesAll, WritesFront, IsWhole};
ghost use Rattle.tas_top.specs.Outputs.{IsOfReport, WritesLegalReport};
ghost use Rattle.program_words.specs.Requests.{input_in, request_in};
ghost use Rattle.program_words.specs.Audits.{is_audit};
ghost use Rattle.program_words.specs.Words.{form_of, Scenario, names_cores, IsAsked, IsMade, most_bytes};
ghost use Rattle.tas_top.specs.declared.stop.Stop.{Stop};

use crate::asking::asked_by;
use crate::audits::tas_audit;
use crate::input::read_input;
use crate::runs::{Job, run_in_order, run_on_cores};
use crate::stop::Stop;
use crate::telling::tell;
use program_words::{Input, Request, asks_audit, names_cores};
use std::alloc::Global;
use std::mem::ManuallyDrop;
use std::sync::Wait;
use std::thread::Threads;
use tas_num::{Gate, IoFault, Sink, Source};
use tas_round::{RunLog, write_capture, write_report, write_summary};

/// Runs what the words ask for, or judges the report that the input has, and answers the status that the program ends
/// with. The output goes to `sink`. Where the status is not 0, a fault line goes to `faults`; if that fails, the status
/// stays. With cores it starts threads and waits for them, and its clauses say what holds where it returns; words that
/// name none are for [`tas_serial`].
pub fn tas<R: Threads + Wait + Sync, S: Source, K: Sink, F: Sink, G: Gate + Sync>(
    rt: &R,
    alloc: Global,
    words: &[String],
    source: &mut S,
    sink: &mut K,
    faults: &mut F,
    gate: &G,
) -> u8
    // At status 0 and 1 the sink grew by exactly the text of the run that was asked for, and 1 says that it is stalled.
    ensures headline { is_audit (map string_bytes words.now) ≡ false → (result ≡ 0) ⊎ (result ≡ 1)
        → WritesAll (given (map string_bytes words.now) (S.state source.old) (S.state source.new)
        (K.state sink.old) (K.state sink.new)) result }
    // The report of a scenario's run that was so written is one that an auditor judges legal.
    ensures legal { is_audit (map string_bytes words.now) ≡ false → (result ≡ 0) ⊎ (result ≡ 1)
        → WritesLegalReport (given (map string_bytes words.now) (S.state source.old) (S.state source.new)
        (K.state sink.old) (K.state sink.new)) }
    // Every status but 0 has its cause, and the fault line tells of it.
    ensures cause { is_audit (map string_bytes words.now) ≡ false
        → HasCause (given (map string_bytes words.now) (S.state source.old) (S.state source.new)
        (K.state sink.old) (K.state sink.new)) (F.state faults.old) (F.state faults.new) result }
    // What a status says of the words, of what was read, and of what was written beside the text.
    ensures orderly { is_audit (map string_bytes words.now) ≡ false
        → IsOrderly (given (map string_bytes words.now) (S.state source.old) (S.state source.new)
        (K.state sink.old) (K.state sink.new)) (F.state faults.old) (F.state faults.new) result }
    // Words that ask for a run, and a scenario or a capture within its length where one is wanted, give status 0 or 1,
    // or want of memory, where no stream fails.
    ensures complete { is_audit (map string_bytes words.now) ≡ false
        → IsWhole (given (map string_bytes words.now) (S.state source.old) (S.state source.new)
        (K.state sink.old) (K.state sink.new))
        → (result ≡ 0) ⊎ ((result ≡ 1) ⊎ (result ≡ 6)) }
    // The word `audit` has a report judged, and this is how that ends.
    ensures audit { is_audit (map string_bytes words.now) ≡ true
        → IsAudit (audited (S.state source.old) (S.state source.new) (K.state sink.old) (K.state sink.new)
        (F.state faults.old) (F.state faults.new)) result }
{
    if asks_audit(words) {
        return tas_audit(alloc, source, sink, faults);
    }
    if names_cores(words) {
        let make = |job: Job|
            requires { IsFit job × (is_some job.asked.cores ≡ true) }
            ensures { IsLogOf job result }
        { run_on_cores(rt, alloc, &job, gate) };
        answer(make, alloc, words, source, sink, faults)
    } else {
        tas_serial(alloc, words, source, sink, faults)
    }
}

/// The same for words that name no cores: it starts no threads and waits for nobody, and so it always returns, if
/// `source`, `sink` and `faults` do.
pub fn tas_serial<S: Source, K: Sink, F: Sink>(
    alloc: Global,
    words: &[String],
    source: &mut S,
    sink: &mut K,
    faults: &mut F,
) -> u8
    requires serial { names_cores (form_of (map string_bytes words.now)) ≡ false }
    // At status 0 and 1 the sink grew by exactly the text of the run that was asked for, and 1 says that it is stalled.
    ensures headline { is_audit (map string_bytes words.now) ≡ false → (result ≡ 0) ⊎ (result ≡ 1)
        → WritesAll (given (map string_bytes words.now) (S.state source.old) (S.state source.new)
        (K.state sink.old) (K.state sink.new)) result }
    // The report of a scenario's run that was so written is one that an auditor judges legal.
    ensures legal { is_audit (map string_bytes words.now) ≡ false → (result ≡ 0) ⊎ (result ≡ 1)
        → WritesLegalReport (given (map string_bytes words.now) (S.state source.old) (S.state source.new)
        (K.state sink.old) (K.state sink.new)) }
    // Every status but 0 has its cause, and the fault line tells of it.
    ensures cause { is_audit (map string_bytes words.now) ≡ false
        → HasCause (given (map string_bytes words.now) (S.state source.old) (S.state source.new)
        (K.state sink.old) (K.state sink.new)) (F.state faults.old) (F.state faults.new) result }
    // What a status says of the words, of what was read, and of what was written beside the text.
    ensures orderly { is_audit (map string_bytes words.now) ≡ false
        → IsOrderly (given (map string_bytes words.now) (S.state source.old) (S.state source.new)
        (K.state sink.old) (K.state sink.new)) (F.state faults.old) (F.state faults.new) result }
    // Words that ask for a run, and a scenario or a capture within its length where one is wanted, give status 0 or 1,
    // or want of memory, where no stream fails.
    ensures complete { is_audit (map string_bytes words.now) ≡ false
        → IsWhole (given (map string_bytes words.now) (S.state source.old) (S.state source.new)
        (K.state sink.old) (K.state sink.new))
        → (result ≡ 0) ⊎ ((result ≡ 1) ⊎ (result ≡ 6)) }
    // The word `audit` has a report judged, and this is how that ends.
    ensures audit { is_audit (map string_bytes words.now) ≡ true
        → IsAudit (audited (S.state source.old) (S.state source.new) (K.state sink.old) (K.state sink.new)
        (F.state faults.old) (F.state faults.new)) result }
{
    if asks_audit(words) {
        return tas_audit(alloc, source, sink, faults);
    }
    let make = |job: Job|
        requires { IsFit job × (job.asked.cores ≡ None) }
        ensures { IsLogOf job result }
    { run_in_order(alloc, &job) };
    answer(make, alloc, words, source, sink, faults)
}

/// The same by one who makes the run that the words ask for.
fn answer<X: FnOnce(Job) -> Result<RunLog, Stop>, S: Source, K: Sink, F: Sink>(
    make: X,
    alloc: Global,
    words: &[String],
    source: &mut S,
    sink: &mut K,
    faults: &mut F,
) -> u8
    requires makes { Makes (form_of (map string_bytes words.now)) (X.pre make) (X.post make) }
    // At status 0 and 1 the sink grew by exactly the text of the run that was asked for, and 1 says that it is stalled.
    ensures headline { (result ≡ 0) ⊎ (result ≡ 1)
        → WritesAll (given (map string_bytes words.now) (S.state source.old) (S.state source.new)
        (K.state sink.old) (K.state sink.new)) result }
    // The report of a scenario's run that was so written is one that an auditor judges legal.
    ensures legal { (result ≡ 0) ⊎ (result ≡ 1)
        → WritesLegalReport (given (map string_bytes words.now) (S.state source.old) (S.state source.new)
        (K.state sink.old) (K.state sink.new)) }
    // Every status but 0 has its cause, and the fault line tells of it.
    ensures cause { (result ≡ 0) ⊎ ((stop : Stop) × (result ≡ status_of stop)
        × Cause (given (map string_bytes words.now) (S.state source.old) (S.state source.new)
        (K.state sink.old) (K.state sink.new)) stop
        × IsTold stop (F.state faults.old) (F.state faults.new)) }
    // At status 0 nothing is told.
    ensures silent { result ≡ 0 → F.state faults.new ≡ F.state faults.old }
    // The words are looked at first: every status but 2 is one of words that ask for a run, and at 2 nothing is read.
    ensures order { (result ≡ 2) ⊎ IsAsked (map string_bytes words.now) }
    ensures unread { result ≡ 2 → S.state source.new ≡ S.state source.old }
    // Then all of the input is read, which is within its length at 0, 1, 3 and 5; at 7 one byte past that was taken.
    ensures read { (result ≡ 0) ⊎ ((result ≡ 1) ⊎ ((result ≡ 3) ⊎ (result ≡ 5)))
        → ReadsFor (form_of (map string_bytes words.now)) (S.state source.old) (S.state source.new) }
    ensures past { result ≡ 7
        → ReadsPast (most_bytes (map string_bytes words.now)) (S.state source.old) (S.state source.new) }
    // For a made scenario nothing is read, whatever the status, so that 3, 4 and 7 do not come.
    ensures made { IsMade (form_of (map string_bytes words.now)) → S.state source.new ≡ S.state source.old }
    ensures sure { IsMade (form_of (map string_bytes words.now))
        → (result ≢ 3) × ((result ≢ 4) × (result ≢ 7)) }
    // A fault of a stream is told as its own status.
    ensures reading { (result ≡ 4) ⊎ ((S.state source.new).faults ≡ (S.state source.old).faults) }
    ensures writing { (result ≡ 5) ⊎ ((K.state sink.new).faults ≡ (K.state sink.old).faults) }
    // At 5 and 6 the sink grew by a front of the text.
    ensures front { (result ≡ 5) ⊎ (result ≡ 6)
        → WritesFront (given (map string_bytes words.now) (S.state source.old) (S.state source.new)
        (K.state sink.old) (K.state sink.new)) }
    // At 6 it did not grow either, unless it is one that takes memory to grow.
    ensures memory { result ≡ 6 → (K.state sink.old).grows ≡ false
        → Keeps (K.state sink.old).held (K.state sink.new).held }
    // At every other status it is as it was.
    ensures nothing { (result ≡ 2) ⊎ ((result ≡ 3) ⊎ ((result ≡ 4) ⊎ (result ≡ 7)))
        → K.state sink.new ≡ K.state sink.old }
    // Words that ask for a run, and a scenario or a capture within its length where one is wanted, give status 0 or 1,
    // or want of memory, where no stream fails.
    ensures complete { IsWhole (given (map string_bytes words.now) (S.state source.old) (S.state source.new)
        (K.state sink.old) (K.state sink.new))
        → (result ≡ 0) ⊎ ((result ≡ 1) ⊎ (result ≡ 6)) }
{
    match serve(make, alloc, words, source, sink) {
        Ok(false) => 0,
        Ok(true) => told(faults, Stop::Stalled),
        Err(stop) => told(faults, stop),
    }
}

/// Tells of a stop, and answers its status.
fn told<F: Sink>(faults: &mut F, stop: Stop) -> u8
    ensures status { result ≡ status_of stop }
    ensures told { IsTold stop (F.state faults.old) (F.state faults.new) }
{
    tell(faults, stop);
    stop.status()
}

/// Runs the input that the source has, and writes what was asked for. Answers whether the run is stalled.
fn serve<X: FnOnce(Job) -> Result<RunLog, Stop>, S: Source, K: Sink>(
    make: X,
    alloc: Global,
    words: &[String],
    source: &mut S,
    sink: &mut K,
) -> Result<bool, Stop>
    requires makes { Makes (form_of (map string_bytes words.now)) (X.pre make) (X.post make) }
    ensures done { IfOk result (λ stalled. WritesAll
        (given (map string_bytes words.now) (S.state source.old) (S.state source.new)
        (K.state sink.old) (K.state sink.new)) (if stalled then 1 else 0)) }
    ensures legal { OnOk result (WritesLegalReport
        (given (map string_bytes words.now) (S.state source.old) (S.state source.new)
        (K.state sink.old) (K.state sink.new))) }
    ensures unstalled { result ≢ Err Stop.Stalled }
    ensures cause { IfErr result (Cause (given (map string_bytes words.now) (S.state source.old) (S.state source.new)
        (K.state sink.old) (K.state sink.new))) }
    ensures front { OnErr result
        (WritesFront (given (map string_bytes words.now) (S.state source.old) (S.state source.new)
        (K.state sink.old) (K.state sink.new))) }
    ensures kept { IfErr result (λ stop. writes_nothing (K.state sink.old).grows stop ≡ true
        → Keeps (K.state sink.old).held (K.state sink.new).held) }
    ensures nothing { IfErr result (Unwrites (K.state sink.old) (K.state sink.new)) }
    ensures first { IfErr result (WordsFirst (map string_bytes words.now)) }
    ensures asked { OnOk result (IsAsked (map string_bytes words.now)) }
    ensures untouched { IfErr result (Untouched (S.state source.old) (S.state source.new)) }
    ensures read { OnOk result
        (ReadsFor (form_of (map string_bytes words.now)) (S.state source.old) (S.state source.new)) }
    ensures before { IfErr result
        (ReadBefore (form_of (map string_bytes words.now)) (S.state source.old) (S.state source.new)) }
    ensures made { IsMade (form_of (map string_bytes words.now)) → S.state source.new ≡ S.state source.old }
    ensures sure { IsMade (form_of (map string_bytes words.now)) → IfErr result IsOfMade }
    ensures reads_calmly { OnOk result ((S.state source.new).faults ≡ (S.state source.old).faults) }
    ensures source_calm { IfErr result (SourceCalm (S.state source.old) (S.state source.new)) }
    ensures writes_calmly { OnOk result ((K.state sink.new).faults ≡ (K.state sink.old).faults) }
    ensures sink_calm { IfErr result (SinkCalm (K.state sink.old) (K.state sink.new)) }
{
    let asked = asked_by(alloc, words)?;
    let bytes = read_input(alloc, asked.input, asked.most_bytes(), source)?;
    let log = run_by(make, Job { asked, bytes })?;
    write_log(alloc, &asked, &log, sink)?;
    let stalled = log.stalled;
    leave(log);
    Ok(stalled)
}

/// The log of the run of this job, by one who makes it.
fn run_by<X: FnOnce(Job) -> Result<RunLog, Stop>>(make: X, job: Job) -> Result<RunLog, Stop>
    requires may { X.pre make job }
    requires makes { (made : Result code.RunLog Stop) → X.post make job made → IsLogOf job made }
    ensures ok { IfOk result (λ log. IsRun (request_in job.asked) job.bytes.items (log_in log)) }
    ensures refused { IfErr result (Unrun (input_in job.asked.input) job.bytes.items) }
{
    make(job)
}

/// The program ends, and all that the run holds with it: to give that back piece by piece would only take time.
fn leave(log: RunLog) {
    let _log = ManuallyDrop::new(log);
}

/// Writes what was asked for of its run: its text, or the capture of the frames that it sent.
fn write_log<K: Sink>(
    alloc: Global,
    asked: &Request,
    log: &RunLog,
    sink: &mut K,
) -> Result<(), Stop>
    ensures ok { OnOk result
        (Wrote (K.state sink.old) (Ok tt) (K.state sink.new) (output (request_in asked.now) (log_in log.now)) []) }
    ensures err { IfErr result
        (Unwritten (K.state sink.old) (K.state sink.new) (output (request_in asked.now) (log_in log.now))) }
    ensures fits { IsOfReport (request_in asked.now) → OnOk result (Fits (log_in log.now)) }
{
    let written = if asked.pcap {
        write_capture(alloc, log, sink)
    } else {
        write_text(alloc, asked.input, log, sink)
    };
    match written {
        Ok(()) => Ok(()),
        Err(IoFault::Failed) => Err(Stop::Write),
        Err(IoFault::OutOfMemory) => Err(Stop::Memory),
    }
}

/// Writes the text of the run of this input: of a made scenario its summary, and else its report.
fn write_text<K: Sink>(
    alloc: Global,
    input: Input,
    log: &RunLog,
    sink: &mut K,
) -> Result<(), IoFault>
    ensures writes { WroteText (K.state sink.old) result (K.state sink.new)
        (text_of (input_in input) (log_in log.now)) }
    ensures fits { input_in input ≡ Scenario → OnOk result (Fits (log_in log.now)) }
{
    match input {
        Input::Made { clients } => write_summary(alloc, clients, log, sink),
        Input::Scenario | Input::Capture { .. } => write_report(alloc, log, sink),
    }
}

//! The laws of replays that lead to those of hosts.

ghost use Rattle.std.specs.Prelude.{◌≡◌, ◌↔◌, ℕ, ◌+◌, ◌≤◌, List, [], Bool, Err, IfOk};
ghost use Rattle.tas_num.specs.Captures.{Fault, capture_of};
ghost use Rattle.tas_model.specs.declared.entry.FrameId.{FrameId};
ghost use Rattle.host_rounds.specs.Logs.{HostRun, RunLog};
ghost use Rattle.host_rounds.specs.Lists.{Each};
ghost use Rattle.host_rounds.specs.Scripts.{Site};
ghost use Rattle.host_rounds.specs.Moves.{AreByMoves};
ghost use Rattle.host_rounds.specs.Rounds.{Round};
ghost use Rattle.host_rounds.specs.Cores.{CoresBelow};
ghost use Rattle.host_rounds.specs.Places.{uses_hosts, coming};
ghost use Rattle.host_rounds.specs.Openings.{AreOpened, openings_of};
ghost use Rattle.host_rounds.specs.Histories.{IsSound, HasSentAll};
ghost use Rattle.tas_runs.specs.Records.{Item};
ghost use Rattle.tas_runs.specs.Batches.{batches_of, AreBatches, flat};
ghost use Rattle.tas_runs.specs.Starts.{first_start};
ghost use Rattle.tas_runs.specs.LocalScript.{Shown, capture_scripts, arrivals_in, due_in};
ghost use Rattle.tas_runs.specs.Replays.{Replay, items_in, replay_params};
ghost use Rattle.tas_runs.specs.SerialOrder.{serial_replay};
ghost use Rattle.tas_runs.specs.SentFrames.{IsShown, AreAnswersShown};
ghost use Rattle.tas_runs.specs.Asking.{AreAsked, IsCaptureBatch};

/// Whatever the script of a capture asks is a row of calls that an application may make, so that the laws of every host
/// in a run are those of a replay's host.
pub fn replays_ask_by_moves()
    ensures { (items : List Item) → AreByMoves (capture_scripts items) }
{}

/// The run in serial order is a run of its capture.
pub fn serial_order_is_right()
    ensures { (local : ℕ) (bytes : List ℕ) (loose : Bool)
        → IfOk (serial_replay local bytes loose) (λ log. Replay local bytes loose log) }
{}

/// The run in serial order has one core, which is core 0: no other makes an entry.
pub fn serial_order_has_one_core()
    ensures { (local : ℕ) (bytes : List ℕ) (loose : Bool)
        → IfOk (serial_replay local bytes loose) (λ log. CoresBelow 1 log.hosts) }
{}

/// In every run of a capture, whatever the order of its ticks, each flow is sound: it has a history of the endpoint, it
/// read a prefix of every stream that its peer may have sent, and it acknowledged only what stands in order.
pub fn flows_are_sound()
    ensures { (local : ℕ) (bytes : List ℕ) (loose : Bool) (log : RunLog) → Replay local bytes loose log
        → Each (λ (h : HostRun). Each IsSound h.flows) log.hosts }
{}

/// Each frame that comes to the host stands in exactly one place of the histories and the log.
pub fn frames_have_one_place()
    // It stands in as many places as it comes,
    ensures place { (local : ℕ) (bytes : List ℕ) (loose : Bool) (log : RunLog) (frame : FrameId)
        → Replay local bytes loose log
        → uses_hosts frame log.hosts ≡ coming frame (arrivals_in (items_in local bytes loose)) }
    // it comes once at most,
    ensures once { (local : ℕ) (bytes : List ℕ) (loose : Bool) (frame : FrameId)
        → coming frame (arrivals_in (items_in local bytes loose)) ≤ 1 }
    // and the batches leave none out.
    ensures batches { (items : List Item) → flat (batches_of items) ≡ items }
{}

/// Every flow was opened with the host's parameters, in one of its slots, as that slot's next generation, and with the
/// first number and the window scale that the capture gives it.
pub fn flows_are_opened_rightly()
    ensures { (local : ℕ) (bytes : List ℕ) (loose : Bool) (log : RunLog) → Replay local bytes loose log
        → Each (λ (h : HostRun). AreOpened (first_start (items_in local bytes loose)) (replay_params local) []
        (openings_of h.flows)) log.hosts }
{}

/// When a run has ended, no flow has a segment that may go.
pub fn flows_have_sent_all()
    ensures { (local : ℕ) (bytes : List ℕ) (loose : Bool) (log : RunLog) → Replay local bytes loose log
        → Each (λ (h : HostRun). Each HasSentAll h.flows) log.hosts }
{}

/// A batch has from 1 to 64 records and no two segments of one flow, and none of them could have been longer.
pub fn batches_are_longest()
    ensures { (items : List Item) → AreBatches (batches_of items) }
{}

/// Every record of a capture is counted once: as a frame, as passed over, or as refused.
pub fn records_are_counted()
    ensures { (local : ℕ) (bytes : List ℕ) (loose : Bool) (log : RunLog) → Replay local bytes loose log
        → log.records ≡ log.frames + log.passed + log.refused }
{}

/// The run in serial order fails exactly where the bytes are no capture, and by the same fault.
pub fn only_captures_are_replayed()
    ensures { (local : ℕ) (bytes : List ℕ) (loose : Bool) (fault : Fault) → serial_replay local bytes loose ≡ Err fault
        ↔ capture_of bytes ≡ Err fault }
{}

/// The capture of a run leaves out nothing: its ticks show all segments of each flow, in their order, and all answers
/// to segments of no flow.
pub fn captures_show_all()
    ensures { (local : ℕ) (bytes : List ℕ) (loose : Bool) (log : RunLog) → Replay local bytes loose log
        → Each (λ (h : HostRun). Each (IsShown log.ticks) h.flows × AreAnswersShown log.ticks h.log) log.hosts }
{}

/// In each tick the application makes each call of a flow's script once at most, and in the order of the script.
pub fn scripts_are_asked_in_order()
    ensures asked { (items : List Item) (t : ℕ) (batch : List Item) (before after : Site (List Shown))
        → IsCaptureBatch batch → Round (capture_scripts items) t (due_in batch) before after
        → AreAsked before.host.flows after.host.flows }
    // That is of every batch of a capture.
    ensures batches { (local : ℕ) (bytes : List ℕ) (loose : Bool)
        → Each IsCaptureBatch (batches_of (items_in local bytes loose)) }
{}

//! What is done alone with one flow's record keeps a host sound.
ghost use Rattle.std.specs.Prelude.{◌≡◌, ◌<◌, ℕ, List, length, Some, None};
ghost use Rattle.segment_fields.specs.declared.segment.Segment.{Segment};
ghost use Rattle.tas_model.specs.declared.entry.Call.{Call};
ghost use Rattle.tas_model.specs.declared.entry.Caller.{Caller};
ghost use Rattle.tas_model.specs.declared.entry.FlowId.{FlowId};
ghost use Rattle.tas_model.specs.declared.entry.FrameId.{FrameId};
ghost use Rattle.tas_model.specs.LegalHistory.{Legal, extended_by};
ghost use Rattle.flow_state.specs.Flow.{Flow};
ghost use Rattle.host_rounds.specs.Hosts.{Waiting};
ghost use Rattle.flow_lock.specs.Answers.{next_in};
ghost use Rattle.flow_lock.specs.Orders.{known_of};
ghost use Rattle.flow_lock.specs.Steps.{IsAlone};
ghost use Rattle.flow_lock.specs.declared.view.History.{History};
ghost use Rattle.flow_lock.specs.declared.view.View.{View};
ghost use Rattle.app_reaper.specs.OneCall.{IsUse};
ghost use Rattle.slow_handshake.specs.Openings.{syn_answer};
ghost use Rattle.slow_handshake.specs.declared.openings.SynAnswer.TheVariants as syn;
ghost use Rattle.core_worker.specs.Frames.{tuple_of};
ghost use Rattle.slow_worker.specs.Entering.{IsEntered};
ghost use Rattle.tas_num.specs.declared.seq.Seq.{Seq};
ghost use Rattle.slow_worker.specs.Opening.{IsOpened};
ghost use Rattle.slow_worker.specs.Workers.{Worker, Setting, IsSound, sight_of, with_sight, flow_with};
ghost use Rattle.slow_worker.specs.declared.served.Served.TheVariants as served;
ghost use Rattle.sound_hosts.specs.Hosts.{CoreHost, known_in};
ghost use Rattle.sound_hosts.specs.Leading.{LedOn};
ghost use Rattle.sound_hosts.specs.Moving.{IsLed, IsLedBy, with_slow};
ghost use Rattle.sound_hosts.specs.Opening.{new_book, with_book};
ghost use Rattle.sound_hosts.specs.Sound.{IsHostSound};

/// A call on a legal history leads its flow on: a closed flow stays closed, and one past its opening stays past it.
pub fn calls_lead_on()
    ensures { (h : History) (by : Caller) (t : ℕ) (call : Call) (offer : List ℕ) → Legal h.params h.entries
        → LedOn h (record h { entries = extended_by h.params h.entries by t call offer }) }
{}

/// Where a flow's record was taken and given back alone, its history is the only thing that is different.
pub fn uses_alone_lead_one_flow()
    ensures { (id : FlowId) (r : Flow) (k : History) (v w : View) → IsAlone v → IsUse id r k v w → IsLed id k v w }
{}

/// A host is sound still where its slow path led one flow on alone, and its lists of openings were told where that
/// stands.
pub fn one_flow_led_keeps_it()
    ensures { (h : CoreHost) (w : Worker) (id : FlowId) (k : History) → IsHostSound h
        → LedOn (known_of id (known_in h)) k → IsLedBy id k h.slow w → IsSound h.table (sight_of w)
        → IsHostSound (with_slow w h) }
{}

/// So it is where the slow path received a frame alone: with all that [`SlowWorker::frame`] says of one that was
/// entered.
///
/// [`SlowWorker::frame`]: slow_worker::SlowWorker::frame
pub fn frames_alone_keep_it()
    ensures { (h : CoreHost) (w : Worker) (at : Setting) (frame : FrameId) (seg : Segment) (id f : FlowId)
        → IsHostSound h → IsEntered at frame seg id (sight_of h.slow) (sight_of w) (served.Entered f)
        → w ≡ with_sight (sight_of w) h.slow → IsSound h.table (sight_of w) → IsHostSound (with_slow w h) }
{}

/// So it is where a SYN opened the next flow alone, in the next free slot, where no flow has its four-tuple and fewer
/// than 4,294,967,295 flows were opened before: with all that [`SlowWorker::frame`] says of one that opened a flow.
///
/// [`SlowWorker::frame`]: slow_worker::SlowWorker::frame
pub fn frames_that_open_keep_it()
    ensures { (h : CoreHost) (w : Worker) (tick : ℕ) (iss : Seq) (frame : FrameId) (seg : Segment) (id : FlowId)
        → IsHostSound h → next_in h.slow.pass.view.marks ≡ Some id → flow_with (tuple_of seg) h.slow.flows ≡ None
        → length h.books < 4294967295 → syn_answer h.slow.path seg.dport ≡ syn.Opens
        → IsOpened tick iss frame seg id (sight_of h.slow) (sight_of w) → w ≡ with_sight (sight_of w) h.slow
        → IsSound h.table (sight_of w) → IsHostSound (with_book (new_book id Waiting) w h) }
{}

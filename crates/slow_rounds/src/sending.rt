//! What is sent alone.
ghost use Rattle.std.specs.Prelude.{◌≡◌, ℕ, List};
ghost use Rattle.tas_model.specs.declared.entry.FlowId.{FlowId};
ghost use Rattle.host_rounds.specs.Lists.{Each};
ghost use Rattle.host_rounds.specs.SerialOrder.{emit_phase};
ghost use Rattle.flow_lock.specs.Steps.{IsAlone};
ghost use Rattle.flow_lock.specs.declared.view.View.{View};
ghost use Rattle.host_books.specs.Books.{Setting, host_of};
ghost use Rattle.host_books.specs.Indexes.{AreIndexed};
ghost use Rattle.core_worker.specs.Sending.{IsAllSent};
ghost use Rattle.core_worker.specs.Workers.{Common};
ghost use Rattle.slow_worker.specs.Alone.{AreUsed, IsAllKicked};
ghost use Rattle.slow_worker.specs.Workers.{Worker};
ghost use Rattle.sound_hosts.specs.Hosts as sound_hosts;
ghost use Rattle.sound_hosts.specs.Hosts.{CoreHost};
ghost use Rattle.sound_hosts.specs.Moving.{with_slow};
ghost use Rattle.sound_hosts.specs.Sound.{IsHostSound};
ghost use Rattle.sound_hosts.specs.Counting.{IsCounted};
ghost use Rattle.slow_rounds.specs.Sending.{AreSent, IsSilent, with_view};

use core_phase::deeds_leave_the_column;

/// Segments that are sent alone, one after the other and in whatever order, until no flow that isn't closed has one
/// more to send, are a run's emissions of that tick. Each is one call on a flow's record, as [`make_call`] says of one
/// that was made, where a segment may go.
///
/// [`make_call`]: app_reaper::make_call
pub fn emissions_alone_are_emit_phases()
    ensures { (s : Setting) (tick : ℕ) (ids : List FlowId) (v w : View) → IsAlone v → AreIndexed s.books v.base
        → AreSent tick ids v w → Each (IsSilent w.base) s.books
        → IsAlone w × AreIndexed s.books w.base × (host_of s w.base ≡ emit_phase tick (host_of s v.base)) }
{}

/// A host is sound still after segments were sent so, and counts its flows if it did: each segment leaves its flow
/// opening or running as it was.
pub fn emissions_alone_keep_it()
    ensures { (h : CoreHost) (tick : ℕ) (ids : List FlowId) (w : View) → IsHostSound h
        → AreSent tick ids h.slow.pass.view w
        → IsHostSound (with_view w h) × (IsCounted h → IsCounted (with_view w h)) }
{
    deeds_leave_the_column();
}

/// What the slow path of a sound host sends alone of each of its flows, until no segment of it may go, is a run's
/// emissions of that tick; and the host is sound still, and counts its flows if it did. It is so with what
/// [`SlowWorker::send_rest`] says.
///
/// [`SlowWorker::send_rest`]: slow_worker::SlowWorker::send_rest
pub fn rests_sent_alone_are_emit_phases()
    ensures { (h : CoreHost) (tick : ℕ) (w : View) → IsHostSound h
        → AreUsed (IsAllSent 0 tick) h.slow.pins h.slow.pass.view w
        → IsHostSound (with_view w h) × (IsCounted h → IsCounted (with_view w h))
        × (sound_hosts.host_of (with_view w h) ≡ emit_phase tick (sound_hosts.host_of h)) }
{
    deeds_leave_the_column();
}

/// Where the slow path of a sound host kicked alone each flow that has something to send, the host is as it was: sound,
/// with its flows counted if they were, and the same in a run. It is so with what [`SlowWorker::kick_all`] says.
///
/// [`SlowWorker::kick_all`]: slow_worker::SlowWorker::kick_all
pub fn kicks_alone_keep_it()
    ensures { (h : CoreHost) (c : Common) (w : Worker) → IsHostSound h → IsAllKicked c h.slow w
        → IsHostSound (with_slow w h) × (IsCounted h → IsCounted (with_slow w h))
        × (sound_hosts.host_of (with_slow w h) ≡ sound_hosts.host_of h) }
{
    deeds_leave_the_column();
}

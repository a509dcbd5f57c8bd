//! The laws of what lanes did side by side, in the words of a run.
ghost use Rattle.std.specs.Prelude.{◌≡◌, ◌++◌, ℕ, Bool, List, [], IsPermutation};
ghost use Rattle.host_rounds.specs.Hosts.{Host};
ghost use Rattle.host_rounds.specs.Lists.{Each};
ghost use Rattle.host_rounds.specs.Scripts.{Site, Scripts};
ghost use Rattle.host_rounds.specs.Rounds.{Due};
ghost use Rattle.core_rounds.specs.CoreTicks.{rest_phase};
ghost use Rattle.core_rounds.specs.SharedTicks.{IsSharedTick};
ghost use Rattle.flow_lock.specs.declared.view.Deed.{Deed};
ghost use Rattle.steering.specs.Tables.{Table};
ghost use Rattle.frame_steering.specs.declared.handing.GroupMove.{GroupMove};
ghost use Rattle.host_books.specs.Books.{Book};
ghost use Rattle.host_books.specs.Words.{joined};
ghost use Rattle.core_worker.specs.Workers.{Worker};
ghost use Rattle.core_worker.specs.declared.frames.Frame.{Frame};
ghost use Rattle.core_phase.specs.Deeds.{IsTurnOf};
ghost use Rattle.lane_orders.specs.Turns.{Did};
ghost use Rattle.lane_orders.specs.Ticks.{Phase, IsHandOut};
ghost use Rattle.phase_orders.specs.CoreTurns.{IsCoreTurn, arrivals_of, broken_in, lines_of};
ghost use Rattle.phase_orders.specs.Collecting.{log_of, HasNoLines, all_broken, collected};
ghost use Rattle.phase_orders.specs.Lanes.{LanePhase, IsOfLanes, all_left};
ghost use Rattle.phase_orders.specs.Handing.{AreHandedOver};
ghost use Rattle.phase_orders.specs.Ticks.{IsTickOfLanes};

/// A core that had passed nothing on before its turn took each frame that was handed to it, or left it, once: what it
/// did has its words.
pub fn core_turns_have_words<S, A>()
    ensures { (tick : ℕ) (books : List Book) (v w : Worker) (ds : List Deed) → v.exceptions ≡ [] → v.deferred ≡ []
        → IsTurnOf tick v w ds → (d : Did S A) × IsCoreTurn tick books v w ds d }
{}

/// A phase of lanes, of which each application tries what its script asks, is a phase of turns: each core's deeds are
/// the frames that it took and the segments that it sent, and each application's is what its script asks, or none
/// where its call was refused by a fault.
pub fn phases_are_turns<S, A>()
    ensures { (scripts : Scripts S A) (check : Bool) (cores t : ℕ) (l : LanePhase scripts check cores t)
        → (p : Phase scripts t) × IsOfLanes l p }
{}

/// Where each core's lane was handed the frames for which the steering named its core, they are handed out, each once.
pub fn lanes_have_a_hand_out<S, A>()
    ensures { (scripts : Scripts S A) (check : Bool) (cores t : ℕ) (l : LanePhase scripts check cores t)
        (p : Phase scripts t) (tables : List Table) (moves : List GroupMove) (frames : List Frame) (now : List Table)
        → IsOfLanes l p → AreHandedOver cores tables moves frames now l.before
        → IsHandOut (arrivals_of check frames) cores p.turns p.did }
{}

/// What the lanes of a phase left is what the slow path collects, each frame once: those whose packets break a rule of
/// reading, then the exceptions of all cores, and then what they deferred. Where their lines were collected before, the
/// cores' lines are those of the first.
pub fn left_frames_are_collected<S, A>()
    ensures frames { (scripts : Scripts S A) (check : Bool) (cores t : ℕ) (l : LanePhase scripts check cores t)
        → IsPermutation (all_left l.before l.after) (collected check l.before l.after) }
    ensures lines { (scripts : Scripts S A) (check : Bool) (cores t : ℕ) (l : LanePhase scripts check cores t)
        → Each HasNoLines l.before → joined log_of l.after ≡ lines_of check t (all_broken check l.before) }
{}

/// Frames whose packets break a rule of reading are, where the slow path takes them, their lines of the log.
pub fn broken_frames_are_lines<S, A>()
    ensures { (scripts : Scripts S A) (t : ℕ) (check : Bool) (host : Host) (fs : List Frame)
        → rest_phase scripts t host (arrivals_of check (broken_in check fs))
        ≡ record host { log = host.log ++ lines_of check t (broken_in check fs) } }
{}

/// A tick of two phases of lanes, with what the slow path and the applications do alone before, between and after them,
/// is a tick of a host whose flows are shared by so many cores, so that it is a right one.
pub fn ticks_of_phases_are_shared<S, A>()
    ensures { (scripts : Scripts S A) (check : Bool) (cores t : ℕ) (due : Due A) (before after : Site S)
        → IsTickOfLanes scripts check cores t due before after → IsSharedTick scripts cores t due before after }
{}

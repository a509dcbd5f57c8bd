//! The laws of closed flows and open ones: records that were filed have the histories that are known of their flows,
//! whatever the host does, and the index has all flows that are open.
ghost use Rattle.std.specs.Prelude.{◌≡◌, ℕ, true, false, List, Option};
ghost use Rattle.tas_model.specs.declared.entry.Call.{Call};
ghost use Rattle.host_rounds.specs.Hosts.{Live, Starts, is_over};
ghost use Rattle.host_rounds.specs.Lists.{Each};
ghost use Rattle.host_rounds.specs.Rounds.{Due};
ghost use Rattle.host_rounds.specs.Scripts.{Scripts};
ghost use Rattle.asked_host.specs.Asking.{asked_by, left_by};
ghost use Rattle.core_host.specs.Asking.{HasSocket, IsAsked, IsAccepting};
ghost use Rattle.core_host.specs.Connecting.{IsConnecting};
ghost use Rattle.core_host.specs.Ending.{AreFiled};
ghost use Rattle.core_host.specs.Kills.{IsKilled};
ghost use Rattle.core_host.specs.Sound.{IsStaffSound};
ghost use Rattle.core_host.specs.Steps.{IsNoted, IsListening};
ghost use Rattle.host_rounds.specs.declared.log.LogEvent.{LogEvent};
ghost use Rattle.core_host.specs.Ticks.{IsBetweenTicks, IsTick, IsTickAlone};
ghost use Rattle.core_host.specs.Views.{Staffed, seen_by};
ghost use Rattle.local_host.specs.declared.host.Connecting.{Connecting};

/// Records that were filed have the histories that are known of their flows after a tick, if they had before it:
/// nothing is done on a flow whose record was filed.
pub fn filed_histories_are_kept<S, A>()
    ensures tick { (scripts : Scripts S A) (t : ℕ) (due : Due A) (before after : Staffed) (state next : S)
        → IsBetweenTicks before → IsTick scripts t due before after state next
        → AreFiled before.host → AreFiled after.host }
    // So it is where the slow path took all frames.
    ensures alone { (scripts : Scripts S A) (t : ℕ) (due : Due A) (before after : Staffed) (state next : S)
        → IsBetweenTicks before → IsTickAlone scripts t due before after state next
        → AreFiled before.host → AreFiled after.host }
{}

/// And so they have after each thing that an application asks alone.
pub fn asks_keep_filed_histories()
    ensures noted { (t : ℕ) (event : LogEvent) (before after : Staffed) → IsStaffSound before
        → IsNoted t event before after → AreFiled before.host → AreFiled after.host }
    ensures listening { (app port : ℕ) (before after : Staffed) → IsStaffSound before
        → IsListening app port before after → AreFiled before.host → AreFiled after.host }
    ensures called { (app n t : ℕ) (call : Call) (offer : List ℕ) (before after : Staffed) → IsStaffSound before
        → HasSocket app n before → IsAsked app (asked_by app n t call offer) before after
        → AreFiled before.host → AreFiled after.host }
    ensures left { (app n t : ℕ) (call : Call) (before after : Staffed) → IsStaffSound before
        → HasSocket app n before → IsAsked app (left_by app n t call) before after
        → AreFiled before.host → AreFiled after.host }
    ensures accepted { (app t port : ℕ) (answer : Option ℕ) (before after : Staffed) → IsStaffSound before
        → IsAccepting app t port before after answer → AreFiled before.host → AreFiled after.host }
    ensures connected { (starts : Starts) (t app raddr rport : ℕ) (answer : Connecting) (before after : Staffed)
        → IsStaffSound before → IsConnecting starts t app raddr rport before after answer
        → AreFiled before.host → AreFiled after.host }
    ensures killed { (app t : ℕ) (before after : Staffed) → IsStaffSound before → IsKilled app t before after
        → AreFiled before.host → AreFiled after.host }
{}

/// The index of a sound host has each flow that isn't closed. So a flow that it hasn't after a tick sent nothing in it
/// (`unindexed_flows_send_nothing` of `closed_flows`).
pub fn open_flows_are_in_the_index()
    ensures { (h : Staffed) → IsStaffSound h
        → Each (λ (l : Live). l.indexed ≡ false → is_over l ≡ true) (seen_by h).flows }
{}

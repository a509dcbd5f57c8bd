//! The laws of what scripts try beside a host's cores.

ghost use Rattle.std.specs.Prelude.{◌≡◌, ◌≢◌, ◌↔◌, ℕ, ◌==◌, ◌++◌, List, ◌∷◌, map, replicate, Option, Some, None};
ghost use Rattle.std.specs.Prelude.{◌≤◌, length, IfSome, slice_get, false};
ghost use Rattle.std.specs.List.{find};
ghost use Rattle.tas_model.specs.declared.entry.HostParams.{HostParams};
ghost use Rattle.tas_model.specs.declared.entry.Reply.{Reply};
ghost use Rattle.flow_state.specs.Calls.{answer_of, reply_of, answer_len};
ghost use Rattle.flow_state.specs.declared.call.Answer.{Answer};
ghost use Rattle.flow_lock.specs.Orders.{same_flow};
ghost use Rattle.flow_lock.specs.declared.view.Held.{Held};
ghost use Rattle.host_books.specs.Books.{Book, Setting, host_of};
ghost use Rattle.host_books.specs.Leavings.{books_after, scripts_after};
ghost use Rattle.host_books.specs.Tries.{IsTry};
ghost use Rattle.lane_orders.specs.Ticks.{AreTried};
ghost use Rattle.scenario_text.specs.declared.scenario.Scenario.{Scenario};
ghost use Rattle.scenario_text.specs.declared.scenario.Step.{Step};
ghost use Rattle.scenario_runs.specs.Applications.{Bound, Script};
ghost use Rattle.scenario_runs.specs.Worlds.{scripts_of};
ghost use Rattle.scenario_laws.specs.Names.{AreOwn};
ghost use Rattle.script_tries.specs.Answers.{Tells};
ghost use Rattle.script_tries.specs.Names.{AreOwnIn, AreRising, HaveOwnSockets};
ghost use Rattle.script_tries.specs.Replies.{leavings_of, answered_of, reply_to, gone_on, later_of};
ghost use Rattle.script_tries.specs.Steps.{by_reply};
ghost use Rattle.script_tries.specs.Tries.{ScriptTry, try_of, IsTryOfStep, AreTriedBy, AreAsks, AreIndependent};
ghost use Rattle.script_tries.specs.Tries.{AreAllIndependent};

/// What a script tries is an ask of it as it stands, whatever is known of the flows.
pub fn tries_stand()
    // It is the call of the step under way, on the flow at its place.
    ensures step { (t : ℕ) (books : List Book) (x : Script) (a : ScriptTry) → try_of t books x ≡ Some a
        → IsTryOfStep t books x a }
    // So it is of one, where it is the script that its number finds,
    ensures one { (sc : Scenario) (p : HostParams) (t : ℕ) (s : Setting) (scripts : List Script) (x : Script)
        → find (λ (y : Script). y.number == x.number) scripts ≡ Some x
        → IfSome (try_of t s.books x) (IsTry (scripts_of sc p) t s scripts) }
    // and of all that these scripts try.
    ensures all { (sc : Scenario) (p : HostParams) (t : ℕ) (s : Setting) (scripts : List Script)
        (tries : List (Option ScriptTry)) → AreTriedBy t s.books scripts tries
        → AreAsks (scripts_of sc p) t s scripts tries }
{}

/// Tries of different scripts on different flows keep out of each other's way.
pub fn tries_are_independent()
    // So do two,
    ensures two { (sc : Scenario) (p : HostParams) (t : ℕ) (books others : List Book) (x y : Script) (a b : ScriptTry)
        → try_of t books x ≡ Some a → try_of t others y ≡ Some b → x.number ≢ y.number
        → same_flow a.flow b.flow ≡ false → AreIndependent (scripts_of sc p) t a b }
    // and all, where the names of scripts stand for sockets of their own applications.
    ensures all { (sc : Scenario) (p : HostParams) (t : ℕ) (books : List Book) (scripts : List Script)
        (tries : List (Option ScriptTry)) → HaveOwnSockets books scripts → AreTriedBy t books scripts tries
        → AreAllIndependent (scripts_of sc p) t tries }
{}

/// Which lists are of what scripts try, each once at most.
pub fn scripts_try_once()
    // What each tries, in their order.
    ensures all { (t : ℕ) (books : List Book) (scripts : List Script) → AreRising scripts
        → AreTriedBy t books scripts (map (try_of t books) scripts) }
    // In front of such a list may stand what tries nothing, and each may try nothing, or be left out.
    ensures front { (t : ℕ) (books : List Book) (scripts : List Script) (tries : List (Option ScriptTry)) (n : ℕ)
        → AreTriedBy t books scripts tries → AreTriedBy t books scripts (replicate n None ++ tries) }
    ensures nothing { (t : ℕ) (books : List Book) (scripts : List Script) (tries more : List (Option ScriptTry))
        (o : Option ScriptTry) → AreTriedBy t books scripts (tries ++ o ∷ more)
        → AreTriedBy t books scripts (tries ++ None ∷ more) }
    ensures out { (t : ℕ) (books : List Book) (scripts : List Script) (tries more : List (Option ScriptTry))
        (o : Option ScriptTry) → AreTriedBy t books scripts (tries ++ o ∷ more)
        → AreTriedBy t books scripts (tries ++ more) }
{}

/// Scripts whose tries were answered go on by the replies, and no others.
pub fn tried_scripts_go_on()
    // What the answered ones leave of the scripts is that these went on.
    ensures scripts { (t : ℕ) (books : List Book) (scripts : List Script) (tries : List (Option ScriptTry))
        (replies : List (Option Reply)) → AreRising scripts → AreTriedBy t books scripts tries
        → scripts_after (leavings_of tries replies) scripts ≡ gone_on tries replies scripts }
    // A reply is that to the script of the try at its place.
    ensures reply { (t : ℕ) (books : List Book) (scripts : List Script) (tries : List (Option ScriptTry))
        (replies : List (Option Reply)) (k : ℕ) (x : ScriptTry) (r : Option Reply)
        → AreTriedBy t books scripts tries → slice_get tries k ≡ Some (Some x) → slice_get replies k ≡ Some r
        → reply_to x.ask tries replies ≡ r }
    // One ask at most of each script was answered, and those with all others, in their order, are one of each script.
    ensures asks { (sc : Scenario) (p : HostParams) (t : ℕ) (books : List Book) (scripts : List Script)
        (tries : List (Option ScriptTry)) (replies : List (Option Reply))
        → AreRising scripts → AreTriedBy t books scripts tries
        → AreTried (scripts_of sc p) (map (λ (s : Script). s.number) scripts) (answered_of tries replies)
        (later_of tries replies (map (λ (s : Script). s.number) scripts)) }
{}

/// The names of scripts stand for sockets of their own applications after any tries that were answered.
pub fn tries_keep_names()
    ensures { (t : ℕ) (books : List Book) (scripts : List Script) (tries : List (Option ScriptTry))
        (replies : List (Option Reply)) → HaveOwnSockets books scripts → AreTriedBy t books scripts tries
        → HaveOwnSockets (books_after (leavings_of tries replies) books)
        (scripts_after (leavings_of tries replies) scripts) }
{}

/// The sockets of an application by the books of its host are those by the flows of the host.
pub fn own_sockets_are_seen()
    ensures { (s : Setting) (known : List Held) (n : ℕ) (names : List (List ℕ × Bound))
        → AreOwnIn s.books n names ↔ AreOwn (host_of s known).flows n names }
{}

/// A script goes on by as much of a reply as the code is told: what it is, and the number of its bytes.
pub fn answers_tell_replies()
    // So it goes on alike by two replies of which the same is told,
    ensures alike { (step : Step) (r q : Reply) (s : Script) → Tells (answer_of r) q
        → by_reply step r s ≡ by_reply step q s }
    // and as by the reply itself where an answer tells of it, whose bytes stand first in any list that has as many.
    ensures answer { (step : Step) (a : Answer) (out : List ℕ) (reply : Reply) (s : Script)
        → answer_len a ≤ length out → Tells a reply → by_reply step (reply_of a out) s ≡ by_reply step reply s }
{}

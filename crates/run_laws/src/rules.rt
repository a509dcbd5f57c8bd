//! The laws of single rules: accepts, kills, calls, connects and the stages of a replay.

ghost use Rattle.std.specs.Prelude.{◌≡◌, ◌≢◌, ℕ, ◌+◌, ◌-◌, ◌<◌, List, [], ◌∷◌, ◌++◌, length, min, take, drop};
ghost use Rattle.std.specs.Prelude.{true, false, Some, None, Contains};
ghost use Rattle.tas_model.specs.declared.entry.Call.TheVariants as calls;
ghost use Rattle.tas_model.specs.declared.entry.Reason.{Reason};
ghost use Rattle.tas_model.specs.declared.entry.Reply.TheVariants as replies;
ghost use Rattle.host_rounds.specs.Lists.{Each};
ghost use Rattle.host_rounds.specs.Hosts.{Live, Host, Listener, Waiting, Application, GivenUp, Starts, is_over};
ghost use Rattle.host_rounds.specs.Hosts.{is_ready, lowest_free, ports_given};
ghost use Rattle.tas_runs.specs.Records.{Content};
ghost use Rattle.tas_runs.specs.LocalScript.{Shown, Shutting, is_wanted};
ghost use Rattle.scenario_runs.specs.Applications.{Turn, Script, accepts, accepts_one, is_concerned, sends, receives};
ghost use Rattle.scenario_runs.specs.Applications.{sent_on, stepped, asks_for, called, connects_on, refused};

/// Accept gives the flow that was opened first of those that may be accepted at the listener's port.
pub fn accept_takes_the_first()
    ensures { (x : Turn) (t port : ℕ) (socket : List ℕ) (older newer : List Live) (l : Live)
        → x.host.flows ≡ older ++ l ∷ newer → Each (λ (m : Live). is_ready port m ≡ false) older
        → is_ready port l ≡ true
        → accepts (Some port) t socket x ≡ accepts_one (Some (length older)) t socket port x }
{}

/// A kill aborts the flows of the application's sockets, and those that wait at its listeners.
pub fn kills_concern_their_own_flows()
    // It concerns each flow whose socket the application has, closed or not,
    ensures own { (app : ℕ) (host : Host) (l : Live) → l.holder ≡ Application app
        → is_concerned app host l ≡ true }
    // none that another application has, and none that was given up.
    ensures others { (app other : ℕ) (host : Host) (l : Live) → l.holder ≡ Application other → other ≢ app
        → is_concerned app host l ≡ false }
    ensures given_up { (app : ℕ) (host : Host) (l : Live) → l.holder ≡ GivenUp
        → is_concerned app host l ≡ false }
    // Of those that nobody accepted, it concerns each that is not closed and came to a port where it listens,
    ensures waiting { (app : ℕ) (host : Host) (l : Live) (x : Listener) → l.holder ≡ Waiting
        → is_over l ≡ false → Contains host.listeners x → x.app ≡ app → x.port ≡ l.flow.tuple.lport
        → is_concerned app host l ≡ true }
    // none that is closed, and none at a port where only others listen.
    ensures closed { (app : ℕ) (host : Host) (l : Live) → l.holder ≡ Waiting → is_over l ≡ true
        → is_concerned app host l ≡ false }
    ensures elsewhere { (app : ℕ) (host : Host) (l : Live) → l.holder ≡ Waiting
        → Each (λ (x : Listener). x.port ≡ l.flow.tuple.lport → x.app ≢ app) host.listeners
        → is_concerned app host l ≡ false }
{}

/// `send` and `fill` go on with the rest, and a call offers or asks as much as it may.
pub fn calls_go_on_with_the_rest()
    // A Send offers the bytes that were not taken, 65,536 at most and no fewer.
    ensures offered { (n t : ℕ) (bytes : List ℕ) (x : Turn) → (sends n t bytes x).host
        ≡ (called n t (calls.Send (min 65536 (length bytes - x.script.done)))
        (take 65536 (drop x.script.done bytes)) x).host }
    // The step goes on where fewer were taken than there are, and where none could be taken yet;
    ensures rest { (bytes : List ℕ) (all : ℕ) (s : Script) → s.done + length bytes < all
        → sent_on (replies.Took bytes) all s ≡ record s { done = s.done + length bytes } }
    ensures waits { (all : ℕ) (s : Script) → sent_on replies.NotYet all s ≡ s }
    // it is over where all were taken, and at each other answer.
    ensures taken { (bytes : List ℕ) (all : ℕ) (s : Script) → s.done + length bytes ≡ all
        → sent_on (replies.Took bytes) all s ≡ stepped s }
    ensures shut { (all : ℕ) (s : Script) → sent_on replies.Shut all s ≡ stepped s }
    ensures not_open { (all : ℕ) (s : Script) → sent_on replies.NotOpen all s ≡ stepped s }
    ensures closed { (why : Reason) (all : ℕ) (s : Script) → sent_on (replies.Closed why) all s ≡ stepped s }
    // A Recv asks for the bytes that did not come yet, 65,536 at most and no fewer; `drain` asks for so many each time.
    ensures asked { (n t all : ℕ) (x : Turn) → (receives n t (Some all) x).host
        ≡ (called n t (calls.Recv (min 65536 (all - x.script.done))) [] x).host }
    ensures drained { (n t : ℕ) (x : Turn) → (receives n t None x).host
        ≡ (called n t (calls.Recv 65536) [] x).host }
{}

/// A connect is refused by its own cause: for want of a slot, and where there is one, for want of a port.
pub fn connects_are_refused_by_their_cause()
    ensures no_slot { (starts : Starts) (t raddr rport : ℕ) (socket : List ℕ) (x : Turn)
        → lowest_free x.host ≡ None
        → connects_on starts false t socket raddr rport x ≡ refused false t raddr rport x }
    ensures no_port { (starts : Starts) (slot t raddr rport : ℕ) (socket : List ℕ) (x : Turn)
        → lowest_free x.host ≡ Some slot → ports_given x.host ≡ 16384
        → connects_on starts false t socket raddr rport x ≡ refused true t raddr rport x }
{}

/// A replay ends its stream only when no byte is pending that the capture showed.
pub fn replays_shut_when_nothing_is_pending()
    ensures { (content : Content) (s : Shown) (l : Live) → is_wanted Shutting content s l ≡ true → s.pending ≡ [] }
{}

//! What applications do alone, and what is done for one that ended, as moves of the host.
ghost use Rattle.std.specs.Prelude.{◌≡◌, ◌∷◌, ◌++◌, ◌<◌, ◌≤◌, ℕ, List, None, Some, length, map, position};
ghost use Rattle.tas_num.specs.declared.seq.Seq.{Seq};
ghost use Rattle.tas_model.specs.declared.entry.FlowId.{FlowId};
ghost use Rattle.tas_model.specs.declared.entry.FourTuple.{FourTuple};
ghost use Rattle.host_rounds.specs.Hosts.{Starts, Holder, Application, is_ready, next_start};
ghost use Rattle.host_rounds.specs.Moves.{Opens, Holds, MayMove, moved};
ghost use Rattle.flow_lock.specs.Orders.{total, at_slot};
ghost use Rattle.flow_lock.specs.Steps.{IsAlone};
ghost use Rattle.flow_lock.specs.declared.view.Held.{Held};
ghost use Rattle.flow_lock.specs.declared.view.View.{View};
ghost use Rattle.flow_lock.specs.Passes.{Seen};
ghost use Rattle.app_reaper.specs.Reaping.{AreReaped, IsAtRest, IsReapedAlone};
ghost use Rattle.app_reaper.specs.declared.ended.Ended.{Ended};
ghost use Rattle.libtas_sockets.specs.Apps as libtas;
ghost use Rattle.slow_handshake.specs.Openings.{first_ready};
ghost use Rattle.slow_worker.specs.Workers.{Worker};
ghost use Rattle.host_books.specs.Books as host_books;
ghost use Rattle.host_books.specs.Books.{Setting, IsAt};
ghost use Rattle.sound_hosts.specs.Hosts.{CoreHost, host_of};
ghost use Rattle.sound_hosts.specs.Leaving.{reheld};
ghost use Rattle.sound_hosts.specs.Opening.{new_book, with_book};
ghost use Rattle.sound_hosts.specs.Sound.{IsHostSound};
ghost use Rattle.slow_rounds.specs.Aborting.{aborted_in, given_up_by, left_alone};
ghost use Rattle.slow_rounds.specs.Opening.{IsOpening, reheld_as};
ghost use Rattle.sound_hosts.specs.Counting.{IsCounted};

/// A flow that an application opened alone, with what [`App::connect`] says of one that it opened, is one that a run's
/// connect opens, where its first number is the run's, which gives it no scale of its own. The slow path counts it.
///
/// [`App::connect`]: libtas_sockets::App::connect
pub fn opened_flows_are_moves()
    ensures { (starts : Starts) (h : CoreHost) (tick app : ℕ) (tuple : FourTuple) (iss : Seq) (id : FlowId)
        (w : Worker) → IsHostSound h → length h.books < 4294967295 → IsOpening tuple iss tick app id h.slow w
        → next_start starts (host_of h) tuple ≡ record { number = iss; scale = None }
        → MayMove (host_of h) (Opens id.slot tuple app)
        × (host_of (with_book (new_book id (Application app)) w h)
        ≡ moved starts tick (host_of h) (Opens id.slot tuple app))
        × (IsCounted h → IsCounted (with_book (new_book id (Application app)) w h)) }
{}

/// Where the socket of a flow changes hands in the books, it does so in a run.
pub fn holders_are_moves()
    ensures { (starts : Starts) (s : Setting) (known : List Held) (tick n : ℕ) (id : FlowId) (x : Holder)
        → IsAt n id s.books
        → host_books.host_of (record s { books = map (reheld (reheld_as id x)) s.books }) known
        ≡ moved starts tick (host_books.host_of s known) (Holds n x) }
{}

/// The flow that an accept finds at a port of a sound host is the first of a run's host that is ready there, and it
/// finds none where none is.
pub fn ready_flows_are_first()
    ensures some { (h : CoreHost) (port : ℕ) (id : FlowId) → IsHostSound h
        → first_ready h.slow.path port ≡ Some id
        → (n : ℕ) × IsAt n id h.books × (position (is_ready port) (host_of h).flows ≡ Some n) }
    ensures none { (h : CoreHost) (port : ℕ) → IsHostSound h → first_ready h.slow.path port ≡ None
        → position (is_ready port) (host_of h).flows ≡ None }
{}

/// The flows of an application that ended, no two in one slot, that were reaped alone have each an Abort by the slow
/// path more, and all else stays: with what [`reap_alone`] says of them. Who has their sockets is told by the books.
///
/// [`reap_alone`]: app_reaper::reap_alone
pub fn reaped_flows_are_aborted()
    ensures { (s : Setting) (tick : ℕ) (ids : List FlowId) (v w : View) → IsAlone v
        → ((i : ℕ) → total (at_slot i) ids ≤ 1) → AreReaped tick ids v w
        → host_books.host_of s w.base
        ≡ record (host_books.host_of s v.base) {
          flows = map (aborted_in ids tick) (host_books.host_of s v.base).flows;
        } }
{}

/// Where an application of a sound host ended, and what it left was reaped alone, each flow that it had has an Abort by
/// the slow path more and is nobody's then, and all else stays: with what [`reap_alone`] says, of what [`App::end`]
/// leaves of an application that holds no record. The flows that wait at its listeners are none of these.
///
/// [`reap_alone`]: app_reaper::reap_alone
/// [`App::end`]: libtas_sockets::App::end
pub fn reaped_flows_are_given_up()
    ensures { (h : CoreHost) (front back : List libtas.Application) (a : libtas.Application) (ended : Ended) (tick : ℕ)
        (n : Seen) → IsHostSound h → h.apps ≡ front ++ a ∷ back → IsAtRest h.table ended
        → ended.pins.list ≡ a.sockets → ended.held ≡ None → IsReapedAlone tick ended h.slow.pass n
        → host_of (left_alone a n h)
        ≡ record (host_of h) { flows = map (given_up_by a.number tick) (host_of h).flows } }
{}

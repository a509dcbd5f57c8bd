//! The laws of orders of deeds, and of the index that each deed leaves right.
ghost use Rattle.std.specs.Prelude.{◌≡◌, ℕ, false, List, map, fold};
ghost use Rattle.tas_model.specs.declared.entry.FlowId.{FlowId};
ghost use Rattle.tas_model.specs.Endpoint.{is_closed};
ghost use Rattle.tas_model.specs.LegalHistory.{Legal};
ghost use Rattle.host_rounds.specs.Lists.{Each};
ghost use Rattle.host_rounds.specs.Hosts.{Holder, is_indexed_as};
ghost use Rattle.host_rounds.specs.Scripts.{Site, Scripts};
ghost use Rattle.host_rounds.specs.Rounds as rounds;
ghost use Rattle.host_rounds.specs.Rounds.{Due, does};
ghost use Rattle.core_rounds.specs.SharedTicks.{IsSharedTick};
ghost use Rattle.flow_lock.specs.Orders.{Order, IsRun, known_of, put, played};
ghost use Rattle.flow_lock.specs.declared.view.Deed.{Deed};
ghost use Rattle.flow_lock.specs.declared.view.Held.{Held};
ghost use Rattle.host_books.specs.Books.{Book, Setting, live_in, site_of, IsAt, IsFirstAt};
ghost use Rattle.host_books.specs.Deeds.{AreCoreDeeds, AreDoneAs, with_holder};
ghost use Rattle.host_books.specs.Indexes.{endpoint_of, AreIndexed, KeepsClosed};
ghost use Rattle.host_books.specs.Leavings.{AreLeft};
ghost use Rattle.host_books.specs.Ticks.{IsTickOfPhases};
ghost use Rattle.host_books.specs.Tries.{Word, IsWord, AreTries, AreApart, ToldAs, deed_of, told_of};
ghost use Rattle.host_books.specs.Words.{deed_in};

/// What an order of deeds in the table leaves is what the host is after the same deeds in the words of a run: frames
/// that cores took, and segments that they sent.
pub fn orders_are_of_cores<S, A>()
    ensures { (scripts : Scripts S A) (t : ℕ) (s : Setting) (state : S) (known : List Held) (order : Order)
        (deeds : List (rounds.Deed A)) → AreCoreDeeds t s.books known order deeds
        → fold (does scripts t) (site_of s known state) deeds ≡ site_of s (played known order) state }
{}

/// So it is where applications asked beside the cores, one call an ask. The books and the scripts move along.
pub fn orders_are_of_all<S, A>()
    ensures { (scripts : Scripts S A) (t : ℕ) (s : Setting) (state : S) (known : List Held) (order : Order)
        (deeds : List (rounds.Deed A)) (after : List Book) (next : S)
        → AreDoneAs scripts t s state known order deeds after next
        → fold (does scripts t) (site_of s known state) deeds
        ≡ site_of (record s { books = after }) (played known order) next }
{}

/// A flow that isn't closed is the first that the index has under its four-tuple, and the only one.
pub fn open_flows_are_found()
    ensures { (books : List Book) (known : List Held) (place : ℕ) (id : FlowId) → AreIndexed books known
        → IsAt place id books → is_closed (endpoint_of (known_of id known)) ≡ false
        → IsFirstAt (is_indexed_as (known_of id known).tuple) place (map (live_in known) books) }
{}

/// A deed done on the legal history that is known leaves the index right, and so does another holder.
pub fn deeds_keep_the_index()
    ensures done { (books : List Book) (known : List Held) (d : Deed) → AreIndexed books known
        → d.before ≡ known_of d.flow known → Legal d.before.params d.before.entries → KeepsClosed d
        → AreIndexed books (put known d) }
    ensures held { (books : List Book) (known : List Held) (place : ℕ) (holds : Holder → Holder)
        → AreIndexed books known → AreIndexed (with_holder place holds books) known }
{}

/// Where each turn's deeds have their words, and the words of all stand in the order of the deeds, the order is these
/// deeds of a run. Each word is what a turn alone can say: a frame that a core took on a connection that isn't closed,
/// a segment that may go, or a call that an application tried, whose ask stands as it was whatever comes before it.
pub fn words_are_done<S, A>()
    ensures { (scripts : Scripts S A) (t : ℕ) (s : Setting) (state : S) (known : List Held) (order : Order)
        (words : List (Word S A)) → AreIndexed s.books known → IsRun known order
        → map deed_of words ≡ map deed_in order → Each (IsWord t s.books) words
        → AreTries scripts t s state words → AreApart scripts t words
        → ToldAs scripts t s state known order (map told_of words) }
{}

/// What such an order leaves of the books and of how far the scripts are is what its tries leave, one after the other:
/// of each, by the reply to its call, who has the socket then, and how far its script is.
pub fn words_leave<S, A>()
    ensures { (scripts : Scripts S A) (t : ℕ) (s : Setting) (state : S) (known : List Held) (order : Order)
        (words : List (Word S A)) → AreIndexed s.books known → IsRun known order
        → map deed_of words ≡ map deed_in order → Each (IsWord t s.books) words
        → AreTries scripts t s state words → AreApart scripts t words
        → (told : ToldAs scripts t s state known order (map told_of words)) × AreLeft words told }
{}

/// A tick in which cores and applications work side by side, and then cores send side by side, is a tick of a host
/// whose flows are shared, so that it is a right one.
pub fn ticks_of_phases_are_shared<S, A>()
    ensures { (scripts : Scripts S A) (cores t : ℕ) (due : Due A) (before after : Site S)
        → IsTickOfPhases scripts cores t due before after → IsSharedTick scripts cores t due before after }
{}

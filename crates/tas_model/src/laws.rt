//! The laws of every legal history.

ghost use Rattle.std.specs.Prelude.{◌≡◌, ℕ, ◌+◌, ◌*◌, ◌^◌, ◌<◌, ◌≤◌, List, [], ◌∷◌, ◌++◌, length, take, min, max};
ghost use Rattle.std.specs.Prelude.{Option, Some, None, IsSome, true, false};
ghost use Rattle.tas_model.specs.declared.entry.Call.{Call};
ghost use Rattle.tas_model.specs.declared.entry.Call.TheVariants as calls;
ghost use Rattle.tas_model.specs.declared.entry.Caller.{Caller};
ghost use Rattle.tas_model.specs.declared.entry.Reply.TheVariants as replies;
ghost use Rattle.tas_model.specs.declared.entry.Entry.{Entry};
ghost use Rattle.tas_model.specs.declared.entry.FrameId.{FrameId};
ghost use Rattle.tas_model.specs.declared.entry.HostParams.{HostParams};
ghost use Rattle.tas_model.specs.declared.entry.Seg.{Seg};
ghost use Rattle.tas_model.specs.Endpoint.{Endpoint, phase, wnd, next_place, send_room};
ghost use Rattle.tas_model.specs.Segments.{peer_first, seg_len, is_rst, is_syn, is_ack};
ghost use Rattle.tas_model.specs.Receive.{is_heard, rx, verdict, place_of_seq, is_acceptable};
ghost use Rattle.tas_model.specs.LegalHistory.{step, Gives, Legal, MayFollow, Offers, shown, last_tick, extended_by};
ghost use Rattle.tas_model.specs.LegalHistory.{moved, replay};
ghost use Rattle.tas_model.specs.Outputs.{AcksInOrder, AllSay, SaysPart, accepted, bytes_read, sent};
ghost use Rattle.tas_model.specs.OneStream.{OneStream, IsOfStream, IsPrefixOf, IsSynchronized};
ghost use Rattle.tas_model.specs.Valid.{Valid, InRange, PlacesWithin};
ghost use Rattle.tas_model.specs.BadSegment.{IsDropped};
ghost use Rattle.tas_model.specs.InOrder.{FollowsInOrder, in_order_outcome};
ghost use Rattle.tas_model.specs.BucketLaw.{data_sent, fills};
ghost use Rattle.tas_model.specs.WorkedHistories.{replay_params, host_params, three_packets, data_out_of_order};
ghost use Rattle.tas_model.specs.WorkedHistories.{three_duplicates, client_of_hello, server_of_hello};

/// A history that grows by an entry that may come next is legal, and its endpoint is the one that the entry's step
/// leaves.
pub fn one_entry_more()
    ensures legal { (params : HostParams) (h : List Entry) (x : Entry) → Legal params h → MayFollow params h x
        → Legal params (h ++ x ∷ []) }
    ensures replay { (params : HostParams) (h : List Entry) (x : Entry) → Legal params h
        → replay params (h ++ x ∷ []) ≡ moved (replay params h) x }
{}

/// A call that is a step makes a legal history longer by its entry.
pub fn one_call_more()
    ensures { (params : HostParams) (h : List Entry) (caller : Caller) (tick : ℕ) (call : Call) (offer : List ℕ)
        → Legal params h → Offers call offer
        → IsSome (step (replay params h) (max tick (last_tick 0 h)) call (shown (replay params h) offer))
        → Legal params (extended_by params h caller tick call offer) }
{}

/// Every history leads to a valid endpoint.
pub fn endpoints_are_valid()
    ensures { (params : HostParams) (h : List Entry) → InRange params → Legal params h → Valid (replay params h) }
{}

/// No place passes 1,048,577 times one more than the entries: each entry adds at most a ring of bytes to either
/// direction.
pub fn places_grow_slowly()
    ensures { (params : HostParams) (h : List Entry) → InRange params → Legal params h
        → PlacesWithin (1048577 * (length h + 1)) (replay params h) }
{}

/// Where the peer sends one stream, what was received in order is its beginning, and all of it where the peer ended.
pub fn received_is_a_prefix()
    ensures { (params : HostParams) (stream : List ℕ) (h : List Entry) → Legal params h → OneStream params stream h
        → IsPrefixOf (replay params h).rx.got stream
        × ((replay params h).rx.ended ≡ true → (replay params h).rx.got ≡ stream) }
{}

/// What was read is the beginning of what was received in order, hence of the peer's stream where it sends one.
pub fn read_is_a_prefix()
    ensures of_received { (params : HostParams) (h : List Entry) → InRange params → Legal params h
        → bytes_read h ≡ take (replay params h).rx.read (replay params h).rx.got }
    ensures of_stream { (params : HostParams) (stream : List ℕ) (h : List Entry) → InRange params → Legal params h
        → OneStream params stream h → IsPrefixOf (bytes_read h) stream }
{}

/// What is sent is what the application's Sends took: each takes as much as there is room for, and no segment says
/// anything else.
pub fn accepted_is_what_is_sent()
    ensures out { (params : HostParams) (h : List Entry) → InRange params → Legal params h
        → (replay params h).tx.out ≡ accepted h }
    ensures fits { (e : Endpoint) (tick offered : ℕ) (bytes : List ℕ)
        → Gives (step e tick (calls.Send offered) (replies.Took bytes)) (replies.Took bytes)
        → length bytes ≡ min offered (send_room e) }
    ensures sent { (params : HostParams) (h : List Entry) → InRange params → Legal params h
        → AllSay (replay params h).iss (accepted h) (sent h) }
{}

/// What a segment says of a stream is heard as that stream: where the stream is shorter than 2^31, and the endpoint has
/// received no more than it, no two places are confused.
pub fn what_is_said_is_heard()
    ensures { (e : Endpoint) (stream : List ℕ) (frame : FrameId) (seg : Seg) → peer_first e < 2 ^ 32
        → length stream + 2 < 2 ^ 31 → next_place e.rx ≤ length stream + 2
        → (is_heard seg ≡ true → SaysPart (peer_first e) stream seg) → IsOfStream stream e (calls.Rx frame seg) }
{}

/// Each segment that was sent with ACK and without RST acknowledges the next place that was expected, and no other.
pub fn acknowledges_what_is_in_order()
    ensures { (params : HostParams) (h : List Entry) → Legal params h → AcksInOrder params h }
{}

/// Plain data that comes in order, where nothing is missing and all that was sent is acknowledged, is received and
/// acknowledged, and may move the window.
pub fn data_in_order_is_received()
    ensures { (e : Endpoint) (tick : ℕ) (seg : Seg) → Valid e → FollowsInOrder e seg
        → rx e tick seg ≡ in_order_outcome e seg }
{}

/// A segment that rules 1 to 4 of the receiving drop changes nothing, and these are they.
pub fn bad_segments_change_nothing()
    ensures dropped { (e : Endpoint) (tick : ℕ) (seg : Seg) → IsSynchronized (phase e) → IsDropped (verdict e seg)
        → (rx e tick seg).state ≡ e }
    // It begins before all places of the peer.
    ensures negative { (e : Endpoint) (seg : Seg) → place_of_seq e seg ≡ None → IsDropped (verdict e seg) }
    // It is not acceptable, and is not the one at r that a window of 0 has no room for.
    ensures unacceptable { (e : Endpoint) (seg : Seg) (q : ℕ) → place_of_seq e seg ≡ Some q
        → is_acceptable (next_place e.rx) (wnd e) q (seg_len seg) ≡ false → (wnd e ≡ 0 → q ≡ next_place e.rx → ⊥)
        → IsDropped (verdict e seg) }
    // It is a reset elsewhere than at r.
    ensures reset_elsewhere { (e : Endpoint) (seg : Seg) (q : ℕ) → place_of_seq e seg ≡ Some q
        → is_acceptable (next_place e.rx) (wnd e) q (seg_len seg) ≡ true → is_rst seg ≡ true → (q ≡ next_place e.rx → ⊥)
        → IsDropped (verdict e seg) }
    // It has SYN.
    ensures syn { (e : Endpoint) (seg : Seg) (q : ℕ) → place_of_seq e seg ≡ Some q
        → is_acceptable (next_place e.rx) (wnd e) q (seg_len seg) ≡ true → is_rst seg ≡ false → is_syn seg ≡ true
        → IsDropped (verdict e seg) }
    // It has no ACK.
    ensures no_ack { (e : Endpoint) (seg : Seg) (q : ℕ) → place_of_seq e seg ≡ Some q
        → is_acceptable (next_place e.rx) (wnd e) q (seg_len seg) ≡ true → is_rst seg ≡ false → is_ack seg ≡ false
        → IsDropped (verdict e seg) }
    // Nothing changes a closed endpoint.
    ensures closed { (e : Endpoint) (tick : ℕ) (seg : Seg) → IsSome e.reason → (rx e tick seg).state ≡ e }
{}

/// Over any stretch of a history after the peer's SYN was taken, the bytes sent as data are at most the bucket's depth
/// at its start and the fills of its ticks.
pub fn bucket_bounds_data()
    ensures { (params : HostParams) (h stretch : List Entry) → InRange params → Legal params (h ++ stretch)
        → IsSome (replay params h).peer
        → data_sent (replay params h) stretch ≤ (replay params h).rate.depth + fills (replay params h) stretch }
{}

/// Histories that an independent program computed are legal.
pub fn worked_histories_are_legal()
    ensures three_packets { Legal replay_params three_packets }
    ensures data_out_of_order { Legal replay_params data_out_of_order }
    ensures three_duplicates { Legal replay_params three_duplicates }
    ensures client_of_hello { Legal (host_params 167772161 1000) client_of_hello }
    ensures server_of_hello { Legal (host_params 167772162 5000) server_of_hello }
{}

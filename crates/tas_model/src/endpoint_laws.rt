//! The laws of single sentences of the standard.

ghost use Rattle.std.specs.Prelude.{◌≡◌, ℕ, ◌<◌, ◌≤◌, true, false, Some, None};
ghost use Rattle.tas_model.specs.declared.entry.Call.TheVariants as calls;
ghost use Rattle.tas_model.specs.declared.entry.Reply.TheVariants as replies;
ghost use Rattle.tas_model.specs.declared.entry.Seg.{Seg};
ghost use Rattle.tas_model.specs.Endpoint.{Endpoint, first_cwnd};
ghost use Rattle.tas_model.specs.Segments.{is_rst, offered_window};
ghost use Rattle.tas_model.specs.Receive.{rx, place_of_ack};
ghost use Rattle.tas_model.specs.LegalHistory.{step, replay, Legal};
ghost use Rattle.tas_model.specs.StandardsWords.{IsCurrent, IsNoReset, RepeatsAcknowledgement, WindowOf};
ghost use Rattle.tas_model.specs.WorkedRules.{
  brief_params,
  control_reply,
  in_flight,
  third_duplicate,
  timer_backs_off,
  newest_window,
  zero_window,
  window_update,
  held_past_a_gap,
  abort_in_syn_received,
  strays_after_an_abort,
  resets_in_syn_sent,
  bytes_wait,
  fin_after_bytes,
};

/// A received segment makes sending go back only where it is the third duplicate acknowledgement in a row (RFC 5681,
/// sections 2 and 3.2).
pub fn only_the_third_duplicate_goes_back()
    ensures repeats { (e : Endpoint) (tick : ℕ) (seg : Seg) → (rx e tick seg).state.tx.nxt < e.tx.nxt
        → RepeatsAcknowledgement e seg }
    // Two came before it, and the ones that follow count as no third.
    ensures third { (e : Endpoint) (tick : ℕ) (seg : Seg) → (rx e tick seg).state.tx.nxt < e.tx.nxt
        → (e.tx.dup ≡ 2) × ((rx e tick seg).state.tx.dup ≡ 3) }
    // Sending goes on from the first place that is not acknowledged.
    ensures place { (e : Endpoint) (tick : ℕ) (seg : Seg) → (rx e tick seg).state.tx.nxt < e.tx.nxt
        → (rx e tick seg).state.tx.nxt ≡ e.tx.una }
    // Nothing but a duplicate counts as one.
    ensures counts { (e : Endpoint) (tick : ℕ) (seg : Seg) → e.tx.dup < (rx e tick seg).state.tx.dup
        → RepeatsAcknowledgement e seg }
{}

/// The peer's window is the newest segment's: a segment's window is taken where its number is past that of the segment
/// that the window is from, or where that is the same and it acknowledges no less. So no old segment moves the window
/// (RFC 9293, section 3.10.7.4, fifth).
pub fn window_is_the_newest()
    ensures newer { (e : Endpoint) (tick q : ℕ) (seg : Seg) → IsCurrent e seg q → e.tx.wl1 < q
        → WindowOf q (place_of_ack e seg) (offered_window e.scaling seg) (rx e tick seg).state.tx }
    ensures as_new { (e : Endpoint) (tick q : ℕ) (seg : Seg) → IsCurrent e seg q → q ≡ e.tx.wl1
        → e.tx.wl2 ≤ place_of_ack e seg
        → WindowOf q (place_of_ack e seg) (offered_window e.scaling seg) (rx e tick seg).state.tx }
    ensures older { (e : Endpoint) (tick q : ℕ) (seg : Seg) → IsCurrent e seg q → q < e.tx.wl1
        → WindowOf e.tx.wl1 e.tx.wl2 e.tx.window (rx e tick seg).state.tx }
    ensures acknowledges_less { (e : Endpoint) (tick q : ℕ) (seg : Seg) → IsCurrent e seg q → q ≡ e.tx.wl1
        → place_of_ack e seg < e.tx.wl2
        → WindowOf e.tx.wl1 e.tx.wl2 e.tx.window (rx e tick seg).state.tx }
{}

/// No reset is ever answered by a reset, in any state (RFC 9293, sections 3.5.2 and 3.10.7.1).
pub fn no_reset_answers_a_reset()
    ensures { (e : Endpoint) (tick : ℕ) (seg : Seg) → is_rst seg ≡ true → IsNoReset (rx e tick seg).reply }
{}

/// Short histories, each of which shows a rule of the standard at work, are legal.
pub fn worked_rules_are_legal()
    // The third duplicate acknowledgement, and no other, goes back (RFC 5681, section 3.2).
    ensures third_duplicate { Legal brief_params third_duplicate }
    // The timeout doubles up to a bound (RFC 6298, section 5.5).
    ensures timer_backs_off { Legal brief_params timer_backs_off }
    // The peer's window is that of the newest segment (RFC 9293, section 3.10.7.4).
    ensures newest_window { Legal brief_params newest_window }
    // A window of 0 is probed without end (RFC 9293, section 3.8.6.1).
    ensures zero_window { Legal brief_params zero_window }
    // Reading offers the window again once half the ring is free (RFC 9293, section 3.8.6.2.2).
    ensures window_update { Legal brief_params window_update }
    // What is held past a gap stays (RFC 9293, section 3.10.7.4).
    ensures held_past_a_gap { Legal brief_params held_past_a_gap }
    // The peer is told of an Abort (RFC 9293, section 3.10.5).
    ensures abort_in_syn_received { Legal brief_params abort_in_syn_received }
    // An Abort gives up what was not read, and later segments are strays (RFC 9293, section 3.10.7.1).
    ensures strays_after_an_abort { Legal brief_params strays_after_an_abort }
    // All bytes go before the FIN (RFC 9293, section 3.10.4),
    ensures fin_after_bytes { Legal brief_params fin_after_bytes }
    // and where the peer has no room for them, nothing goes.
    ensures fin_waits { step (replay brief_params bytes_wait) 0 calls.Emit replies.Ok ≡ None }
    // In SYN-SENT a reset has to acknowledge the SYN (RFC 9293, section 3.10.7.3).
    ensures resets_in_syn_sent { Legal brief_params resets_in_syn_sent }
{}

/// The initial window is 4 segments of up to 1,095 bytes, 3 of up to 2,190, and 2 of more (RFC 5681, section 3.1).
pub fn initial_window_by_size()
    ensures four { first_cwnd false 1095 ≡ 4380 }
    ensures three { first_cwnd false 1096 ≡ 3288 }
    ensures still_three { first_cwnd false 2190 ≡ 6570 }
    ensures two { first_cwnd false 2191 ≡ 4382 }
{}

/// What Control makes of an interval, with segments of 1,000 bytes: what is in flight is all that was sent and is not
/// acknowledged, whether it goes again or not (RFC 5681, sections 2, 3.1 and 3.2).
pub fn control_follows_losses()
    // A fast retransmission halves both windows,
    ensures fast { control_reply (in_flight 10000 0 1 0 12000 65535) ≡ Some (replies.Window 5000 5000) }
    // to two segments at least.
    ensures fast_least { control_reply (in_flight 1000 0 1 0 12000 65535) ≡ Some (replies.Window 2000 2000) }
    // A timeout begins again with one segment, up to half of what was in flight,
    ensures timeout { control_reply (in_flight 10000 0 0 1 12000 65535) ≡ Some (replies.Window 1000 5000) }
    // or two segments at least, also where both kinds of loss came.
    ensures timeout_least { control_reply (in_flight 1000 0 1 1 12000 65535) ≡ Some (replies.Window 1000 2000) }
    // Slow start grows by what was acknowledged.
    ensures slow_start { control_reply (in_flight 0 1500 0 0 2000 5000) ≡ Some (replies.Window 3500 5000) }
    // From the threshold on a window that was acknowledged whole grows by one segment,
    ensures avoidance { control_reply (in_flight 0 5000 0 0 5000 5000) ≡ Some (replies.Window 6000 5000) }
    // and half of it by half a segment.
    ensures avoidance_half { control_reply (in_flight 0 2500 0 0 5000 5000) ≡ Some (replies.Window 5500 5000) }
{}

//! The laws of windows and their scaling (RFC 7323, section 2).

ghost use Rattle.std.specs.Prelude.{◌≡◌, ℕ, ◌+◌, ◌*◌, ◌/◌, ◌^◌, ◌<◌, ◌≤◌, List, ◌++◌, Option, Some, None, min, true};
ghost use Rattle.std.specs.Prelude.{false};
ghost use Rattle.tas_model.specs.declared.entry.Entry.{Entry};
ghost use Rattle.tas_model.specs.declared.entry.HostParams.{HostParams};
ghost use Rattle.tas_model.specs.declared.entry.Seg.{Seg};
ghost use Rattle.tas_model.specs.Endpoint.{Endpoint, free, wnd, window_field, unscaled, agreed_scaling};
ghost use Rattle.tas_model.specs.Segments.{is_syn, offered_window};
ghost use Rattle.tas_model.specs.ApplicationCalls.{least_update};
ghost use Rattle.tas_model.specs.Receive.{rx};
ghost use Rattle.tas_model.specs.LegalHistory.{replay, Legal};
ghost use Rattle.tas_model.specs.Outputs.{sent};
ghost use Rattle.tas_model.specs.Valid.{InRange};
ghost use Rattle.tas_model.specs.Fields.{FitWindows};
ghost use Rattle.tas_model.specs.OfferedWindow.{right_edge, shown_edge, OffersRoom, OffersInOrder};
ghost use Rattle.tas_model.specs.WorkedScaling.{scaled_params, unscaled_params, coarse_params, both_scale};
ghost use Rattle.tas_model.specs.WorkedScaling.{own_side_alone, peers_side_alone, small_opening};
ghost use Rattle.tas_model.specs.Shifts.{with_scale, AllBearInSyn, AllBearNone};

/// A window that was offered is never taken back (RFC 9293, section 3.8.6; RFC 7323, section 2.4).
pub fn window_is_never_taken_back()
    // The end of the window in which bytes are taken never moves left,
    ensures edge { (params : HostParams) (h stretch : List Entry) → InRange params → Legal params h
        → Legal params (h ++ stretch) → right_edge (replay params h) ≤ right_edge (replay params (h ++ stretch)) }
    // and each segment that was sent, and is no reset, shows no more than it, and no less than it but for what the
    // shift rounds off; a SYN may show less.
    ensures offered { (params : HostParams) (h : List Entry) → Legal params h → OffersInOrder params h }
    // So a byte that any segment ever offered is in the window ever after,
    ensures honoured { (params : HostParams) (h stretch : List Entry) (seg : Seg) → InRange params → Legal params h
        → Legal params (h ++ stretch) → OffersRoom (replay params h) seg
        → shown_edge (replay params h) seg ≤ right_edge (replay params (h ++ stretch)) }
    // and the edge that segments show moves left by 2^rs - 1 bytes at most.
    ensures shown { (params : HostParams) (h stretch : List Entry) (first second : Seg) → InRange params
        → Legal params h → Legal params (h ++ stretch) → OffersRoom (replay params h) first
        → OffersRoom (replay params (h ++ stretch)) second → is_syn second ≡ false
        → shown_edge (replay params h) first
        < shown_edge (replay params (h ++ stretch)) second + 2 ^ (replay params (h ++ stretch)).scaling.rs }
{}

/// Windows are scaled where both sides' SYN segments bore the option, and nowhere else (RFC 7323, section 2.2).
pub fn shifts_are_agreed()
    ensures ours { (theirs : Option ℕ) → agreed_scaling None theirs ≡ unscaled }
    ensures theirs { (own : Option ℕ) → agreed_scaling own None ≡ unscaled }
    ensures both { (own theirs : ℕ) → agreed_scaling (Some own) (Some theirs)
        ≡ record { agreed = true; ss = min theirs 14; rs = own } }
    // No segment without SYN bears a shift.
    ensures in_syn { (params : HostParams) (h : List Entry) → InRange params → Legal params h → AllBearInSyn (sent h) }
{}

/// The peer's window is at most 65,535 units of its shift, where the window fields of the segments that came fit into
/// 16 bits (RFC 7323, section 2.3).
pub fn peers_window_is_bounded()
    ensures { (params : HostParams) (h : List Entry) → Legal params h → FitWindows h
        → (replay params h).tx.window ≤ 65535 * 2 ^ (replay params h).scaling.ss }
{}

/// Where this side offers no shift, each term of the rules that the option touches is what it is without the option,
/// and so is every history.
pub fn without_scale_windows_are_as_before()
    ensures unscaled { (params : HostParams) (h : List Entry) → InRange params → params.scale ≡ None → Legal params h
        → (replay params h).scaling ≡ unscaled }
    // The window is what fits into 16 bits, and so is its field;
    ensures wnd { (e : Endpoint) → e.scaling ≡ unscaled → wnd e ≡ min (free e) 65535 }
    ensures field { (e : Endpoint) → e.scaling ≡ unscaled → window_field e ≡ min (free e) 65535 }
    // the peer's is its field;
    ensures offer { (e : Endpoint) (seg : Seg) → e.scaling ≡ unscaled
        → offered_window e.scaling seg ≡ seg.head.window }
    // an update is due at a segment, or half the ring;
    ensures update { (e : Endpoint) → InRange e.params → e.scaling ≡ unscaled
        → least_update e ≡ min e.params.mss (e.params.ring / 2) }
    // no shift is sent, and one that is received makes no difference.
    ensures sent { (params : HostParams) (h : List Entry) → InRange params → params.scale ≡ None → Legal params h
        → AllBearNone (sent h) }
    ensures received { (e : Endpoint) (tick : ℕ) (seg : Seg) (scale : Option ℕ) → e.params.scale ≡ None
        → rx e tick (with_scale seg scale) ≡ rx e tick seg }
{}

/// Short histories of connections with and without scaled windows are legal.
pub fn worked_scaling_is_legal()
    // Both sides' windows are scaled, but in SYN segments (RFC 7323, sections 2.2 and 2.3),
    ensures both_scale { Legal scaled_params both_scale }
    // and none where one side alone offers it.
    ensures own_side_alone { Legal scaled_params own_side_alone }
    ensures peers_side_alone { Legal unscaled_params peers_side_alone }
    // A window that opens by less than a field can show sends no update (RFC 9293, section 3.8.6.2.2).
    ensures small_opening { Legal coarse_params small_opening }
{}

//! Worked histories: each shows a rule of the standard that no law of all histories holds.
ghost use Rattle.std.specs.Prelude.{◌≡◌, None, false, map, replicate};
ghost use Rattle.tas_model.specs.declared.entry.Call.TheVariants as calls;
ghost use Rattle.tas_model.specs.declared.entry.Caller.TheVariants.{Slow};
ghost use Rattle.tas_model.specs.declared.entry.Reply.TheVariants as replies;
ghost use Rattle.tas_model.specs.LegalHistory.{step, replay, Legal};
ghost use Rattle.tas_runs.specs.Report.{flags_text};
ghost use Rattle.tas_runs.specs.WorkedTexts.{host_address, replayed};
ghost use Rattle.worked_histories.specs.Beginnings.{patient_params};
ghost use Rattle.worked_histories.specs.WorkedProgress.{timer_begins_anew, duplicates_begin_anew};
ghost use Rattle.worked_histories.specs.WorkedProgress.{connected_begins_anew, accepted_begins_anew};
ghost use Rattle.worked_histories.specs.WorkedProgress.{opened_window, probe_is_over};
ghost use Rattle.worked_histories.specs.WorkedProgress.{open_window_moves, tries_at_a_closed_window};
ghost use Rattle.worked_histories.specs.WorkedProgress.{answers_to_a_probe};
ghost use Rattle.worked_histories.specs.WorkedReceiving.{numbers_after_going_back, no_update_after_the_end};
ghost use Rattle.worked_histories.specs.WorkedReceiving.{no_update_after_both_ends, acceptable_by_either_end};
ghost use Rattle.worked_histories.specs.WorkedReceiving.{bytes_past_a_full_ring, touching_bytes_are_joined};
ghost use Rattle.worked_histories.specs.WorkedEndings.{bucket_is_filled_by_ticks, wait_after_fin_wait_2};
ghost use Rattle.worked_histories.specs.WorkedEndings.{wait_after_closing, fin_has_a_place};
ghost use Rattle.worked_histories.specs.WorkedEndings.{shut_twice, close_in_syn_sent};
ghost use Rattle.worked_histories.specs.WorkedEndings.{close_in_syn_received};
ghost use Rattle.worked_histories.specs.WorkedShifts.{large_params, shift_of_15};
ghost use Rattle.worked_histories.specs.WorkedReading.{takers, while_open, by_the_fast_path, while_not_open};
ghost use Rattle.worked_histories.specs.WorkedReading.{all_flags, all_letters, broken_capture, broken_report};

/// What something new begins anew, and what it does not: timer, doubling, duplicates and probes.
pub fn worked_progress()
    // What is acknowledged for the first time begins timer and doubling anew (RFC 6298, section 5),
    ensures timer_begins_anew { Legal patient_params timer_begins_anew }
    // and the count of duplicates (RFC 5681, section 2).
    ensures duplicates_begin_anew { Legal patient_params duplicates_begin_anew }
    // So does the acknowledgement of the SYN in SYN-SENT,
    ensures connected_begins_anew { Legal patient_params connected_begins_anew }
    // and in SYN-RECEIVED, where that of place 0 is answered by a reset (RFC 9293, section 3.10.7.4, fifth).
    ensures accepted_begins_anew { Legal patient_params accepted_begins_anew }
    // A window that opens begins the timer anew, and not the doubling (RFC 9293, section 3.8.6.1),
    ensures opened_window { Legal patient_params opened_window }
    // and ends the probe that was due: nothing goes where it closed again.
    ensures probe_is_over { Legal patient_params probe_is_over }
    ensures no_probe_goes { step (replay patient_params probe_is_over) 3 calls.Emit replies.Ok ≡ None }
    // One that was open begins nothing anew.
    ensures open_window_moves { Legal patient_params open_window_moves }
    // A window of 0 that is taken ends the doubling, and one that is not taken doesn't.
    ensures tries_at_a_closed_window { Legal patient_params tries_at_a_closed_window }
    // At a window of 0 nothing is a duplicate (RFC 5681, section 2).
    ensures answers_to_a_probe { Legal patient_params answers_to_a_probe }
{}

/// What is acceptable and what is held, what the numbers of answers are, and what opens the own window again.
pub fn worked_receiving()
    // An answer, an update and a reset bear the highest place sent, also after going back (RFC 9293, section 3.10.7.4).
    ensures numbers_after_going_back { Legal patient_params numbers_after_going_back }
    // Reading after the peer's end offers no window (RFC 9293, section 3.8.6.2.2).
    ensures no_update_after_the_end { Legal patient_params no_update_after_the_end }
    ensures no_update_after_both_ends { Legal patient_params no_update_after_both_ends }
    // A segment is acceptable by its first or its last place (RFC 9293, section 3.10.7.4, first).
    ensures acceptable_by_either_end { Legal patient_params acceptable_by_either_end }
    // Bytes at an own window of 0 are no duplicate acknowledgement (RFC 5681, section 2).
    ensures bytes_past_a_full_ring { Legal patient_params bytes_past_a_full_ring }
    // Bytes that touch what is held past a gap are held with it (RFC 9293, section 3.10.7.4, seventh).
    ensures touching_bytes_are_joined { Legal patient_params touching_bytes_are_joined }
{}

/// How fast a connection sends, how it ends, and what the calls answer that end it.
pub fn worked_endings()
    // Control sets the bucket's fill and a tick adds it, and neither fills it whole.
    ensures bucket_is_filled_by_ticks { Legal patient_params bucket_is_filled_by_ticks }
    // TIME-WAIT lasts four timeouts, from the peer's FIN (RFC 9293, section 3.6.1),
    ensures wait_after_fin_wait_2 { Legal patient_params wait_after_fin_wait_2 }
    // or in CLOSING from the acknowledgement of the own one.
    ensures wait_after_closing { Legal patient_params wait_after_closing }
    // The FIN is acknowledged with its own place (RFC 9293, section 3.4).
    ensures fin_has_a_place { Legal patient_params fin_has_a_place }
    // A stream ends once (RFC 9293, section 3.10.4).
    ensures shut_twice { Legal patient_params shut_twice }
    // Who leaves in the opening gives the connection up (RFC 9293, section 3.10.4).
    ensures close_in_syn_sent { Legal patient_params close_in_syn_sent }
    ensures close_in_syn_received { Legal patient_params close_in_syn_received }
{}

/// A shift above 14 is read as 14 (RFC 7323, section 2.3).
pub fn worked_shifts()
    ensures shift_of_15 { Legal large_params shift_of_15 }
    // The window of one unit has 16,384 bytes: no more goes.
    ensures no_more_goes { step (replay large_params shift_of_15) 0 calls.Emit replies.Ok ≡ None }
{}

/// Which segments the fast path takes, the letters of flags, and what becomes of packets that break a rule of reading.
pub fn worked_reading()
    // The fast path takes segments with ACK and without URG, FIN, SYN and RST, in ESTABLISHED, FIN-WAIT-1,
    // FIN-WAIT-2 and CLOSE-WAIT,
    ensures common { map takers while_open ≡ replicate 4 by_the_fast_path }
    // and the slow path all else.
    ensures other { map takers while_not_open ≡ replicate 6 (replicate 9 Slow) }
    // The bits from the highest on: CWR, ECE, URG, ACK, PSH, RST, SYN, FIN (RFC 9293, section 3.1).
    ensures letters { map flags_text all_flags ≡ all_letters }
    // Packets of other versions and protocols and fragments are passed over, and all others that break a rule are
    // lines.
    ensures broken { replayed host_address broken_capture false ≡ broken_report }
{}

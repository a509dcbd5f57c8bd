//! Worked replays, held against the definitions.

ghost use Rattle.std.specs.Prelude.{◌≡◌, true, false, Err};
ghost use Rattle.tas_num.specs.Captures.{CutShort};
ghost use Rattle.tas_runs.specs.SerialOrder.{serial_replay};
ghost use Rattle.tas_runs.specs.WorkedTexts.{host_address, replayed, capture_or_none};
ghost use Rattle.tas_runs.specs.WorkedReplays.{hello_capture, hello_report, late_start_capture, late_start_report};
ghost use Rattle.tas_runs.specs.WorkedReplays.{sending_capture, sending_report, both_ends_capture, both_ends_report};
ghost use Rattle.tas_runs.specs.WorkedReplays.{resets_capture, resets_report, hello_sent, cut_capture};
ghost use Rattle.tas_runs.specs.WorkedRecords.{damaged_capture, damaged_report, loose_report, two_strays_capture};
ghost use Rattle.tas_runs.specs.WorkedRecords.{two_strays_report, other_traffic_capture, other_traffic_report};
ghost use Rattle.tas_runs.specs.WorkedRecords.{two_faults_capture, two_faults_report, later_number_capture};
ghost use Rattle.tas_runs.specs.WorkedRecords.{later_number_report, counted_openings_capture, counted_openings_report};
ghost use Rattle.tas_runs.specs.WorkedRecords.{data_and_end_capture, data_and_end_report, early_data_capture};
ghost use Rattle.tas_runs.specs.WorkedRecords.{early_data_report, refused_connect_capture, refused_connect_report};
ghost use Rattle.tas_runs.specs.WorkedRecords.{reset_while_opening_capture, reset_while_opening_report};
ghost use Rattle.tas_runs.specs.WorkedRecords.{abort_while_opening_capture, abort_while_opening_report};
ghost use Rattle.tas_runs.specs.WorkedRecords.{used_again_capture, used_again_report, late_segment_capture};
ghost use Rattle.tas_runs.specs.WorkedRecords.{late_segment_report};
ghost use Rattle.tas_runs.specs.WorkedOrders.{second_number_capture, second_number_report, syn_with_data_capture};
ghost use Rattle.tas_runs.specs.WorkedOrders.{syn_with_data_report, local_gap_capture, local_gap_report};
ghost use Rattle.tas_runs.specs.WorkedOrders.{strays_last_capture, strays_last_sent};
ghost use Rattle.tas_runs.specs.WorkedScales.{scaled_upload_capture, scaled_upload_report, own_scales_capture};
ghost use Rattle.tas_runs.specs.WorkedScales.{own_scales_report};

/// Reports that another program wrote for captures of single connections are those of the run in serial order.
pub fn worked_replays()
    ensures hello { replayed host_address hello_capture false ≡ hello_report }
    ensures late_start { replayed host_address late_start_capture false ≡ late_start_report }
    ensures sending { replayed host_address sending_capture false ≡ sending_report }
    ensures both_ends { replayed host_address both_ends_capture false ≡ both_ends_report }
    ensures resets { replayed host_address resets_capture false ≡ resets_report }
    // The capture of what was sent, and a capture that is cut short.
    ensures hello_sent { capture_or_none (serial_replay host_address hello_capture false) ≡ hello_sent }
    ensures cut_short { serial_replay host_address cut_capture false ≡ Err (CutShort 3) }
{}

/// The same of captures that show how records are chosen, which batches they make, and what the local script does with
/// them.
pub fn worked_records()
    ensures damaged { replayed host_address damaged_capture false ≡ damaged_report }
    ensures loose { replayed host_address damaged_capture true ≡ loose_report }
    ensures two_strays { replayed host_address two_strays_capture false ≡ two_strays_report }
    ensures other_traffic { replayed host_address other_traffic_capture false ≡ other_traffic_report }
    ensures two_faults { replayed host_address two_faults_capture false ≡ two_faults_report }
    ensures later_number { replayed host_address later_number_capture false ≡ later_number_report }
    ensures counted_openings { replayed host_address counted_openings_capture false ≡ counted_openings_report }
    ensures data_and_end { replayed host_address data_and_end_capture false ≡ data_and_end_report }
    ensures early_data { replayed host_address early_data_capture false ≡ early_data_report }
    ensures refused_connect { replayed host_address refused_connect_capture false ≡ refused_connect_report }
    ensures reset_while_opening { replayed host_address reset_while_opening_capture false ≡ reset_while_opening_report }
    ensures abort_while_opening { replayed host_address abort_while_opening_capture false ≡ abort_while_opening_report }
    ensures used_again { replayed host_address used_again_capture false ≡ used_again_report }
    ensures late_segment { replayed host_address late_segment_capture false ≡ late_segment_report }
{}

/// Replays worked by hand: which first numbers a capture gives, which local bytes are offered, and in which order
/// frames are written.
pub fn worked_orders()
    ensures second_number { replayed host_address second_number_capture false ≡ second_number_report }
    ensures syn_with_data { replayed host_address syn_with_data_capture false ≡ syn_with_data_report }
    ensures local_gap { replayed host_address local_gap_capture false ≡ local_gap_report }
    // The capture of what was sent.
    ensures strays_last { capture_or_none (serial_replay host_address strays_last_capture false) ≡ strays_last_sent }
{}

/// Replays whose windows are scaled: which shift a flow has, and what its segments offer.
pub fn worked_scales()
    // Both SYN segments bear a shift. The report was written by another program.
    ensures scaled_upload { replayed host_address scaled_upload_capture false ≡ scaled_upload_report }
    // A shift above 10, two SYN segments with one number, and a second flow without a shift, worked by hand.
    ensures own_scales { replayed host_address own_scales_capture false ≡ own_scales_report }
{}

//! Worked hosts, frames, records and words, held against the definitions.

ghost use Rattle.std.specs.Prelude.{◌≡◌, ◌+◌, [], codes, true, false};
ghost use Rattle.host_rounds.specs.WorkedTicks.{ids, frame};
ghost use Rattle.host_rounds.specs.declared.log.LogEvent.TheVariants as events;
ghost use Rattle.link_script.specs.DueFrames.{due};
ghost use Rattle.tas_runs.specs.Report.{flags_text, event_text};
ghost use Rattle.tas_runs.specs.WorkedTexts.{host_address, replayed};
ghost use Rattle.scenario_runs.specs.WorkedParts.{reported};
ghost use Rattle.run_laws.specs.WorkedHosts.{filled, filled_log, filled_ids};
ghost use Rattle.run_laws.specs.WorkedFrames.{some_lines, all_sent, all_due};
ghost use Rattle.run_laws.specs.WorkedRecords.{broken_capture, broken_report};
ghost use Rattle.run_laws.specs.WorkedRest.{late_answer, late_answer_report};

/// A SYN is dropped for a full backlog before it is dropped for want of a slot, and a closed flow counts to no backlog.
pub fn worked_hosts()
    ensures log { filled.log ≡ filled_log }
    ensures ids { ids filled ≡ filled_ids }
{}

/// Frames that are due come by tick of emission, then by host, by flow with those of no flow last, by number and by
/// copy.
pub fn worked_frames()
    ensures { due some_lines all_sent 10 ≡ all_due }
{}

/// Of a capture's packets those that are not IPv4, fragments or not TCP are passed over, and each other one that breaks
/// a rule of reading is a line of the log.
pub fn worked_records()
    ensures { replayed host_address broken_capture false ≡ broken_report }
{}

/// A run goes on while a frame is on the link, also when all scripts have ended and all flows are closed.
pub fn worked_rest()
    ensures { reported late_answer ≡ late_answer_report }
{}

/// The words of a report that tell apart what looks alike.
pub fn worked_words()
    // Each bit of the flags has its own letter, and they stand in one order.
    ensures no_flag { flags_text 0 ≡ codes "-" }
    ensures fin { flags_text 1 ≡ codes "F" }
    ensures syn { flags_text 2 ≡ codes "S" }
    ensures rst { flags_text 4 ≡ codes "R" }
    ensures psh { flags_text 8 ≡ codes "P" }
    ensures ack { flags_text 16 ≡ codes "A" }
    ensures urg { flags_text 32 ≡ codes "U" }
    ensures ece { flags_text 64 ≡ codes "E" }
    ensures cwr { flags_text 128 ≡ codes "C" }
    ensures all_flags { flags_text 255 ≡ codes "CEUAPRSF" }
    // A connect that was refused for want of a port, and one for want of a slot.
    ensures no_port { event_text [] (events.ConnectRefused 7 167772161 80 true)
        ≡ codes "p7 connect 10.0.0.1:80 = noport" }
    ensures no_slot { event_text [] (events.ConnectRefused 7 167772161 80 false)
        ≡ codes "p7 connect 10.0.0.1:80 = noflowslot" }
    // A SYN that was dropped for a full backlog, and one for want of a slot.
    ensures full { event_text [] (events.Dropped (frame 3) true) ≡ codes "dropped -:0.3 = backlogfull" }
    ensures crowded { event_text [] (events.Dropped (frame 3) false) ≡ codes "dropped -:0.3 = noflowslot" }
    // A listener that came to stand, and one whose port another has.
    ensures listens { event_text [] (events.Listen 7 80 true) ≡ codes "p7 listen 80 = ok" }
    ensures in_use { event_text [] (events.Listen 7 80 false) ≡ codes "p7 listen 80 = portinuse" }
{}

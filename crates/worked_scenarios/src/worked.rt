//! Worked runs of scenarios over a lossy link, held against the definitions.

ghost use Rattle.std.specs.Prelude.{◌≡◌, Err};
ghost use Rattle.scenario_runs.specs.WorkedParts.{reported};
ghost use Rattle.scenario_runs.specs.WorkedRuns.{hello_report};
ghost use Rattle.worked_scenarios.specs.WorkedTalks.{lost, lost_report, doubled, doubled_report, wrapped};
ghost use Rattle.worked_scenarios.specs.WorkedTalks.{wrapped_report, nobody, nobody_report, lone, lone_report};
ghost use Rattle.worked_scenarios.specs.WorkedEnds.{unanswered, killed_late, killed_late_report, killed_after};
ghost use Rattle.worked_scenarios.specs.WorkedEnds.{slot_kept, slot_kept_report};
ghost use Rattle.worked_scenarios.specs.WorkedEnds.{stalled, stalled_report, cut_short, cut_short_report, open_flows};
ghost use Rattle.worked_scenarios.specs.WorkedEnds.{open_flows_report, no_such_byte, all_steps, all_steps_report};
ghost use Rattle.worked_scenarios.specs.WorkedLinks.{own_host, own_host_report, silent, silent_report, one_waits};
ghost use Rattle.worked_scenarios.specs.WorkedLinks.{one_waits_report};
ghost use Rattle.worked_scenarios.specs.WorkedHoles.{late_middle, late_middle_report, two_holes, two_holes_report};
ghost use Rattle.worked_scenarios.specs.WorkedForms.{spaced_text, spaced_text_report, spaced_lines};
ghost use Rattle.worked_scenarios.specs.WorkedForms.{idle_report, between_steps};
ghost use Rattle.worked_scenarios.specs.WorkedForms.{blank_text, blank_text_report, killed_at_once};
ghost use Rattle.worked_scenarios.specs.WorkedForms.{strange_byte, bare_return, wrong_name};
ghost use Rattle.worked_scenarios.specs.WorkedForms.{unknown_name, many_options, unknown_option, half_option};
ghost use Rattle.worked_scenarios.specs.WorkedScaling.{both_scale, both_scale_report, one_scales, one_scales_report};
ghost use Rattle.worked_scenarios.specs.WorkedScaling.{coarse_for_ring, large_for_slots};
ghost use Rattle.scenario_text.specs.declared.reading.ScenarioFault.TheVariants.{Refused};
ghost use Rattle.scenario_text.specs.Reads.{reads};

/// Reports that another program wrote for scenarios whose frames are lost, doubled and damaged are those of the run
/// in serial order.
pub fn worked_talks()
    ensures lost { reported lost ≡ lost_report }
    ensures doubled { reported doubled ≡ doubled_report }
    ensures wrapped { reported wrapped ≡ wrapped_report }
    ensures nobody { reported nobody ≡ nobody_report }
    ensures lone { reported lone ≡ lone_report }
{}

/// The same of kills, slots, refused connects and limits.
pub fn worked_ends()
    ensures unanswered { reported unanswered ≡ nobody_report }
    ensures killed_late { reported killed_late ≡ killed_late_report }
    ensures killed_after { reported killed_after ≡ hello_report }
    ensures slot_kept { reported slot_kept ≡ slot_kept_report }
    ensures stalled { reported stalled ≡ stalled_report }
    ensures cut_short { reported cut_short ≡ cut_short_report }
    ensures open_flows { reported open_flows ≡ open_flows_report }
    ensures no_such_byte { reported no_such_byte ≡ hello_report }
    ensures all_steps { reported all_steps ≡ all_steps_report }
{}

/// The same of longer runs over links that lose, delay and starve.
pub fn worked_links()
    ensures own_host { reported own_host ≡ own_host_report }
    ensures late_middle { reported late_middle ≡ late_middle_report }
    ensures two_holes { reported two_holes ≡ two_holes_report }
    ensures silent { reported silent ≡ silent_report }
    ensures one_waits { reported one_waits ≡ one_waits_report }
{}

/// The same of texts that try the forms of lines, and the first refused line of texts that are no scenarios, with its
/// kind.
pub fn worked_forms()
    ensures spaced_text { reported spaced_text ≡ spaced_text_report }
    ensures spaced_lines { reported spaced_lines ≡ idle_report }
    ensures between_steps { reported between_steps ≡ hello_report }
    ensures blank_text { reported blank_text ≡ blank_text_report }
    ensures killed_at_once { reported killed_at_once ≡ idle_report }
    ensures strange_byte { reads strange_byte ≡ Err (Refused 2 2) }
    ensures bare_return { reads bare_return ≡ Err (Refused 1 2) }
    ensures wrong_name { reads wrong_name ≡ Err (Refused 4 6) }
    ensures unknown_name { reads unknown_name ≡ Err (Refused 3 6) }
    ensures many_options { reads many_options ≡ Err (Refused 1 4) }
    ensures unknown_option { reads unknown_option ≡ Err (Refused 2 6) }
    ensures half_option { reads half_option ≡ Err (Refused 2 4) }
{}

/// The same of hosts that scale their windows, and the first refused line of two texts whose rings are out of their
/// limits, with its kind.
pub fn worked_scaling()
    ensures both_scale { reported both_scale ≡ both_scale_report }
    ensures one_scales { reported one_scales ≡ one_scales_report }
    ensures coarse_for_ring { reads coarse_for_ring ≡ Err (Refused 1 8) }
    ensures large_for_slots { reads large_for_slots ≡ Err (Refused 1 8) }
{}

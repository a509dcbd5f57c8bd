//! The laws that a place in a report is what the parts of a report say.

ghost use Rattle.std.specs.Prelude.{◌≡◌, ◌↔◌, ℕ, List, IsSome};
ghost use Rattle.report_lines.specs.Lines.{Line};
ghost use Rattle.report_form.specs.Reports.{IsReport, MayBegin};
ghost use Rattle.report_form.specs.Places.{IsAt, led};
ghost use Rattle.report_form.specs.declared.place.Place.TheVariants as places;

/// The lines that lead from the beginning to the end are the reports.
pub fn reports_are_led_to_the_end()
    ensures { (addrs : List ℕ) (lines : List Line) → IsAt addrs lines places.Ended ↔ IsReport addrs lines }
{}

/// The lines that lead anywhere are what a report may begin with: so the first that leads nowhere is the earliest at
/// fault.
pub fn beginnings_are_led()
    ensures { (addrs : List ℕ) (lines : List Line) → IsSome (led addrs places.Start lines) ↔ MayBegin addrs lines }
{}

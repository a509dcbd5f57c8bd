//! The law that a report is not refused.

ghost use Rattle.std.specs.Prelude.{ℕ, List};
ghost use Rattle.report_lines.specs.Lines.{Line};
ghost use Rattle.report_picture.specs.Forms.{IsForm, IsFault};

/// A text that is a report has no line at fault: so a picture is refused exactly where the text is none, or has not the
/// flow that is wanted.
pub fn a_report_has_no_fault()
    ensures { (text : List ℕ) (lines : List Line) (number : ℕ) → IsForm text lines → IsFault text number → ⊥ }
{}

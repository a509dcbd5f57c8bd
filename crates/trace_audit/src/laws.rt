//! The laws that a text has one verdict.

ghost use Rattle.std.specs.Prelude.{◌≡◌, ℕ, List};
ghost use Rattle.trace_audit.specs.Forms.{Said, IsForm, IsRefused};

/// A text that is of its form says one thing.
pub fn a_text_says_one_thing()
    ensures { (text : List ℕ) (one other : Said) → IsForm text one → IsForm text other → one ≡ other }
{}

/// It is not refused: so each text has one answer at most.
pub fn what_is_of_its_form_is_not_refused()
    ensures { (text : List ℕ) (said : Said) (number : ℕ) → IsForm text said → IsRefused text number → ⊥ }
{}

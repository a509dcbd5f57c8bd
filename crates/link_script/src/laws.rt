//! The laws of which frames are due.

ghost use Rattle.std.specs.Prelude.{◌≡◌, ◌<◌, ◌≤◌, ◌==◌, ℕ, false, List, filter};
ghost use Rattle.link_script.specs.LinkLines.{LinkLines};
ghost use Rattle.link_script.specs.DueFrames.{due, is_due};
ghost use Rattle.link_script.specs.declared.frames.Sent.{Sent};

/// Which frames are due goes by the frames of each tick, and by no order among those of different ticks. Frames that
/// were sent before a tick `low` play no part where none of them is due any more.
pub fn due_goes_by_ticks()
    ensures { (lines : LinkLines) (xs ys : List Sent) (t low : ℕ)
        → ((f : Sent) → f.tick < low → is_due lines t f ≡ false)
        → ((k : ℕ) → low ≤ k → filter (λ (f : Sent). f.tick == k) xs ≡ filter (λ (f : Sent). f.tick == k) ys)
        → due lines xs t ≡ due lines ys t }
{}

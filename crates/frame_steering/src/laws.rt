//! The law of hand-outs.
ghost use Rattle.std.specs.Prelude.{◌≡◌, ◌<◌, ℕ, All, List, length, IsPermutation};
ghost use Rattle.frame_steering.specs.Giving.{given_below};

/// Frames that were handed out to so many cores go to one core each.
pub fn each_frame_goes_to_one_core<X>()
    ensures { (cores : ℕ) (handed : List ℕ) (frames : List X) → length handed ≡ length frames
        → All (λ core. core < cores) handed → IsPermutation (given_below cores handed frames) frames }
{}

//! What threads work on.
use std::sync::Wait;
use tas_num::Gate;

/// What a thread works on. It moves to the thread and back.
pub trait Job {
    /// It may be worked on.
    ghost can: { Self → Type 0 };

    /// What work makes of it.
    ghost made: { Self → Self → Type 0 };

    /// Works on it, on whatever thread. The gate is the phase's, whose points the work may pass.
    fn work<R: Wait, G: Gate>(&mut self, rt: &R, gate: &G)
        requires { can self.old }
        ensures { made self.old self.new };
}

/// What a crew cuts a list of into parts that take as long.
pub trait Weighed {
    /// How much there is to do, beside others in the list, in a unit of its own. It is a guess, and no promise rests on
    /// it.
    fn weight(&self) -> usize;
}

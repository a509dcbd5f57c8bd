//! Rings that hold nothing give their memory back.

ghost use Rattle.std.specs.Prelude.{◌≡◌};
ghost use Rattle.flow_state.specs.Released.{kept_ring, released_parts};

use crate::parts::Parts;
use payload_ring::Ring;

/// Gives the ring's memory back where it holds no byte.
fn release_empty(ring: &mut Ring)
    ensures { ring.new ≡ kept_ring ring.old }
{
    if ring.len() == 0 {
        ring.release();
    }
}

impl Parts {
    /// Gives back the memory of each ring that holds no byte.
    pub(crate) fn release(&mut self)
        ensures { self.new ≡ released_parts self.old }
    {
        release_empty(&mut self.tx);
        if self.island.is_none() {
            release_empty(&mut self.rx);
        }
    }
}

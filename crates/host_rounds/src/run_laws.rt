//! The laws of frames that come to no flow, and of what entries show.

ghost use Rattle.std.specs.Prelude.{◌≡◌, Bool, true};
ghost use Rattle.host_rounds.specs.Lists.{Each};
ghost use Rattle.host_rounds.specs.Deliveries.{Arrival};
ghost use Rattle.host_rounds.specs.EveryTick.{InEveryTick};
ghost use Rattle.host_rounds.specs.Meetings.{IsMetRightly};
ghost use Rattle.host_rounds.specs.Frames.{IsOfFrames};

/// Segments that come to no flow are met rightly in every order of a tick: only a SYN with neither RST nor ACK opens a
/// flow, a reset is never answered, and an acknowledgement gets a reset with the number that it acknowledges.
pub fn strangers_are_met_rightly<S, A>()
    ensures { InEveryTick S A (λ scripts t due before after. IsMetRightly before.host → IsMetRightly after.host) }
{}

/// Each entry with a segment, and each line of the log about a frame's packet, has what came in that frame, and the
/// entry stands in a flow of its four-tuple: a test that all frames pass which came is passed by all that is shown.
pub fn only_what_came_is_shown<S, A>()
    ensures { (came : Arrival → Bool) → InEveryTick S A (λ scripts t due before after.
        Each (λ (x : Arrival). came x ≡ true) due.frames → IsOfFrames came before.host → IsOfFrames came after.host) }
{}

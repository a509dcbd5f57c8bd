//! What is kept of all that hosts sent, for the ticks that follow.

ghost use Rattle.std.specs.Prelude.{◌≡◌, ℕ, ◌+◌, ◌==◌, ◌||◌, filter, nat_lt};
ghost use Rattle.std.specs.List.{list_any};
ghost use Rattle.link_script.specs.declared.frames.Sent.{Sent};
ghost use Rattle.scenario_runs.specs.Worlds.{World, is_under_way};
ghost use Rattle.scenario_world.specs.Playing.{IsWorldOf, AreRecent};

use crate::resting::last_coming;
use link_script::{LinkScript, SentList};
use scenario_text::Scenario;
use sent_frames::SentCounts;

/// What is kept between two ticks of the frames that the hosts of a run sent, so that no tick looks at all that was
/// ever sent.
#[derive(Drop)]
pub struct Traffic {
    /// The addresses of the hosts.
    pub addresses: Vec<u32>,
    /// How many frames each of them sent.
    pub counts: Vec<SentCounts>,
    /// The frames of which one may still come.
    pub sent: SentList,
    /// The tick in which the last of all frames comes that were sent and not lost; 0 where there is none.
    pub last: u64,
}

impl Traffic {
    /// Takes note of when the last frame comes, once those that were sent in a tick are on the link.
    pub fn note_last(&mut self, link: &LinkScript, tick: u32)
        ensures last { (n : ℕ) → nat_lt n self.new.last ≡ (nat_lt n self.old.last
            || list_any (is_under_way link.now n) (filter (λ (f : Sent). f.tick == tick) self.old.sent)) }
        ensures addresses { self.new.addresses ≡ self.old.addresses }
        ensures counts { self.new.counts ≡ self.old.counts }
        ensures sent { self.new.sent ≡ self.old.sent }
    {
        self.last = last_coming(link, self.sent.sent_in(tick), self.last);
    }

    /// The frames go of which nothing comes in the next tick or after it, so that a long run keeps only those on the
    /// link.
    pub fn forget(&mut self, s: &Scenario, tick: u32)
        ensures world { (world : World) → IsWorldOf s.now (tick + 1) world self.old
            → IsWorldOf s.now (tick + 1) world self.new }
        ensures recent { AreRecent s.now.link tick self.new.sent }
    {
        self.sent
            .forget_before(tick.saturating_sub(s.link.longest_delay()));
    }
}

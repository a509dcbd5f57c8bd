//! Hosts by their names.

ghost use Rattle.std.specs.Prelude.{◌≡◌, ◌≤◌, length};
ghost use Rattle.scenario_text.specs.Drafts.{host_of};

use crate::draft::host_of;
use crate::scenario::Scenario;

impl Scenario {
    /// The number of the host with this name, counted from 0, in a scenario of at most 8 hosts, as every one is that
    /// was read.
    pub fn host(&self, name: &[u8]) -> Option<u32>
        ensures { length self.now.hosts ≤ 8 → result ≡ host_of self.now.hosts name.now }
    {
        match host_of(self.hosts.as_slice(), name) {
            Some(host) => u32::try_from(host).ok(),
            None => None,
        }
    }
}

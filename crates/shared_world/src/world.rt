//! A scenario in the middle of its run on shared flows.

use core_host::CoreHost;
use scenario_world::Traffic;
use shared_scripts::HostScripts;

/// The hosts of a scenario between two ticks, the scripts of their applications, and what is kept of the frames that
/// they sent.
///
/// It is no `Drop`, since hosts are none.
pub(crate) struct SharedWorld<'a> {
    pub(crate) hosts: Vec<CoreHost>,
    pub(crate) scripts: Vec<HostScripts<'a>>,
    pub(crate) traffic: Traffic,
}

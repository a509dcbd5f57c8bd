//! What words ask for.

ghost use Rattle.std.specs.Prelude.{◌≡◌, ◌≤◌};
ghost use Rattle.program_words.specs.Words as forms;
ghost use Rattle.program_words.specs.Requests.{request_in};

use std::net::Ipv4Addr;

/// What the input is.
#[derive(Clone, Copy, Debug)]
pub enum Input {
    /// A scenario.
    Scenario,
    /// The scenario that is made for so many clients. Nothing is read.
    Made { clients: u32 },
    /// A capture of what the host with this address saw. With `loose` no checksum of a frame is looked at.
    Capture { local: Ipv4Addr, loose: bool },
}

/// What the words ask for.
#[derive(Clone, Copy, Debug)]
pub struct Request {
    pub input: Input,
    /// On how many cores it runs, or on one thread, in serial order.
    pub cores: Option<u32>,
    /// Whether the frames sent are written as a capture, in place of the report.
    pub pcap: bool,
}

impl Request {
    /// The most bytes that its input may have: 1 MiB for a scenario, none for one that is made, and 64 MiB for a
    /// capture.
    pub fn most_bytes(&self) -> u32
        ensures limit { (form : forms.Form) → forms.Asks form (request_in self.now) → result ≡ forms.most_in form }
        ensures any { result ≤ 67108864 }
    {
        match self.input {
            Input::Scenario => 1_048_576,
            Input::Made { .. } => 0,
            Input::Capture { .. } => 67_108_864,
        }
    }
}

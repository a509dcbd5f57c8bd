//! What a scenario is.

use crate::lists::Lines;
use link_script::LinkScript;
use tas_model::{Bytes, HostParams};

/// A host: its name, and what it gives its endpoints.
#[derive(Drop)]
pub struct HostLine {
    pub name: Bytes,
    pub params: HostParams,
}

/// What an application does in one step. The first name of a step is that of its listener or socket.
#[derive(Drop)]
pub enum Step {
    /// A listener of this name on a port.
    Listen(Bytes, u32),
    /// A socket of this name takes a connection of the listener.
    Accept(Bytes, Bytes),
    /// A socket of this name connects to the host's port.
    Connect(Bytes, Bytes, u32),
    /// The socket sends this text.
    Send(Bytes, Bytes),
    /// The socket sends so many bytes, of which the k-th is k mod 251.
    Fill(Bytes, u32),
    /// The socket receives so many bytes.
    Recv(Bytes, u32),
    /// The socket receives until there is no more.
    Drain(Bytes),
    /// The socket ends its stream.
    Shut(Bytes),
    /// The socket is closed and given up.
    Close(Bytes),
    /// The socket is aborted and given up.
    Abort(Bytes),
    /// So many ticks without a call.
    Wait(u32),
}

/// An application: its host, its name and its steps.
#[derive(Drop)]
pub struct AppLine {
    pub host: Bytes,
    pub name: Bytes,
    pub steps: Lines<Step>,
}

/// A group of flows of a host goes to a core, at a tick.
#[derive(Drop)]
pub struct MoveLine {
    pub host: Bytes,
    pub group: u32,
    pub core: u32,
    pub at: u32,
}

/// An application ends at a tick; where `holding` is true, it holds its newest socket's record then.
#[derive(Drop)]
pub struct KillLine {
    pub host: Bytes,
    pub app: Bytes,
    pub at: u32,
    pub holding: bool,
}

/// A scenario: the number of ticks at most, and its hosts, applications, lines of the link, moves and kills in the
/// order of the text.
#[derive(Drop)]
pub struct Scenario {
    pub limit: u32,
    pub hosts: Lines<HostLine>,
    pub apps: Lines<AppLine>,
    pub link: LinkScript,
    pub moves: Lines<MoveLine>,
    pub kills: Lines<KillLine>,
}

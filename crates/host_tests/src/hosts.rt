//! What a host and its applications are made of.
use core_worker::CoreWorker;
use libtas_sockets::{App, Socket};
use slow_worker::SlowWorker;
use steering::SteerPass;

/// An application with two sockets.
#[derive(Drop)]
pub struct Client {
    pub app: App,
    pub sockets: (Socket, Socket),
}

/// Both applications, 0 and 1.
#[derive(Drop)]
pub struct Clients {
    pub first: Client,
    pub second: Client,
}

/// The workers of all cores, and the way of frames to them.
#[derive(Drop)]
pub struct Cores {
    pub steer: SteerPass,
    /// That of core 0 first.
    pub workers: Vec<CoreWorker>,
}

/// The workers of a host and its applications, without what they share. It is no `Drop`, since the slow path's
/// worker is none.
pub struct Host {
    pub slow: SlowWorker,
    pub cores: Cores,
    pub clients: Clients,
}

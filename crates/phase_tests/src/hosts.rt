//! What a host of these tests is made of.
use core_phase::Lane;
use core_worker::Shared;
use flow_lock::{FlowTable, Pass, Pin, SlowPass};
use flow_state::FlowRecord;
use libtas_sockets::{App, Socket};
use std::alloc::Global;
use std::sync::Arc;

/// A table with a flow that an application has connected, the slow path's pass and its pin, and a further pass.
#[derive(Drop)]
pub struct Start {
    pub table: FlowTable<FlowRecord>,
    pub slow: SlowPass<FlowRecord>,
    pub pin: Pin,
    pub core: Pass<FlowRecord>,
    pub app: App,
    pub socket: Socket,
}

/// A host with the application's lane and then the core's, to which a frame with the peer's words was handed.
#[derive(Drop)]
pub struct Host {
    pub shared: Arc<Shared, Global>,
    pub slow: SlowPass<FlowRecord>,
    pub pin: Pin,
    pub lanes: Vec<Lane>,
}

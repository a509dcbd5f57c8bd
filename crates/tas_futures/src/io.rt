//! What a call on a socket is made with.
use crate::waiters::Waiters;
use flow_lock::FlowTable;
use flow_state::FlowRecord;
use libtas_sockets::App;

/// What the calls of one application are made with, and where its tasks wait. Its pass is one of the table's.
#[derive(Drop)]
pub struct Io<'a> {
    pub app: &'a mut App,
    pub table: &'a FlowTable<FlowRecord>,
    pub waiters: &'a mut Waiters,
    pub tick: u32,
}

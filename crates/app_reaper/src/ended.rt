//! What an application that ended leaves behind.

ghost use Rattle.std.specs.Prelude.{◌≡◌};

use crate::pin_list::PinList;
use flow_lock::{Pass, Word};
use flow_state::FlowRecord;

/// What an application that ended leaves behind.
#[derive(Drop)]
pub struct Ended {
    /// Its number.
    pub app: u32,
    pub pass: Pass<FlowRecord>,
    /// The record that the pass holds, with the place of its pin in `pins`.
    pub held: Option<(u32, FlowRecord)>,
    /// The word that was found where the last record was to be taken and another pass held it.
    pub busy: Option<Word>,
    /// The pins of the pass.
    pub pins: PinList,
}

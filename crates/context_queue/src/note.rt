/// A note about a flow, from one sender to the receiver.
#[derive(Clone, Copy, PartialEq, Eq, Debug, Drop)]
pub struct Note {
    /// 1: bytes can be read. 2: bytes can be sent. 3: the flow is closed. 4: a kick, the flow wants to be looked at.
    pub kind: u8,
    /// The slot of the flow.
    pub slot: u32,
    /// The generation of the flow.
    pub generation: u32,
}

/// A note with the number of its sender.
#[derive(Clone, Copy, Drop)]
pub struct Letter {
    pub from: u32,
    pub note: Note,
}

/// The block of a set, as far as it has come: its data, and two bytes more.
#[derive(Drop)]
pub(crate) struct Block {
    pub key: Vec<u8>,
    pub flags: u32,
    /// The bytes of the data.
    pub len: u32,
    /// The first bytes of the block.
    pub bytes: Vec<u8>,
}

/// What a session is at, with what it keeps of bytes that are no whole command yet.
#[derive(Drop)]
pub(crate) enum Mode {
    /// In a line, of which these bytes have come.
    Line(Vec<u8>),
    /// In the block of a set.
    Block(Block),
    /// In the block of a set that is too large, of which so many bytes are still to come. They are not kept.
    Dropped(u64),
    /// The session has ended.
    Over,
}

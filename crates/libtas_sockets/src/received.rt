/// What came in.
#[derive(Clone, Copy, PartialEq, Eq, Debug)]
pub enum Received {
    /// So many bytes, which stand first in the buffer.
    Bytes(u32),
    /// The peer ended its stream, and all of it was read.
    End,
}

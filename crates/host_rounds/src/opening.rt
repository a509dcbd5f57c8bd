//! What a host gives a flow at its opening.

use tas_num::Seq;

/// What a host gives a flow at its opening: its first sequence number (RFC 9293, section 3.4.1), and the shift of a
/// window scale of its own, where it has one (RFC 7323, section 2.3).
#[derive(Clone, Copy, PartialEq, Eq, Debug)]
pub struct Start {
    pub number: Seq,
    pub scale: Option<u8>,
}

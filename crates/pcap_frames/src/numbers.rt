//! Numbers in the writer's byte order.

ghost use Rattle.std.specs.Prelude.{◌≡◌, ◌+◌, ◌≤◌, length};
ghost use Rattle.tas_num.specs.Captures.{half_by, word_by};

use byteorder::{BigEndian, ByteOrder, LittleEndian};

/// The number of 16 bits at a place, in the writer's byte order.
#[inline(always)]
pub fn half_at(bytes: &[u8], at: usize, big: bool) -> u16
    requires { at + 2 ≤ length bytes.now }
    ensures { result ≡ half_by big bytes.now at }
{
    if big {
        BigEndian::read_u16(&bytes[at..at + 2])
    } else {
        LittleEndian::read_u16(&bytes[at..at + 2])
    }
}

/// The number of 32 bits at a place, in the writer's byte order.
#[inline(always)]
pub fn word_at(bytes: &[u8], at: usize, big: bool) -> u32
    requires { at + 4 ≤ length bytes.now }
    ensures { result ≡ word_by big bytes.now at }
{
    if big {
        BigEndian::read_u32(&bytes[at..at + 4])
    } else {
        LittleEndian::read_u32(&bytes[at..at + 4])
    }
}

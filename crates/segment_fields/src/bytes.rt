//! Bytes of numbers, the most significant first.

ghost use Rattle.std.specs.Prelude.{◌≡◌, ℕ, ◌+◌, ◌<◌, ◌≤◌, length};
ghost use Rattle.segment_fields.specs.Bytes.{half, word};

use byteorder::{BigEndian, ByteOrder};

#[inline(always)]
pub fn half_at(b: &[u8], i: usize) -> u16
    requires { i + 2 ≤ length b.now }
    ensures { result ≡ half b.now i }
{
    BigEndian::read_u16(&b[i..i + 2])
}

#[inline(always)]
pub fn word_at(b: &[u8], i: usize) -> u32
    requires { i + 4 ≤ length b.now }
    ensures { result ≡ word b.now i }
{
    BigEndian::read_u32(&b[i..i + 4])
}

//! The one packet of a segment is written.

ghost use Rattle.std.specs.Prelude.{◌≡◌, ℕ, ◌+◌, ◌*◌, ◌%◌, ◌^◌, ◌<◌, ◌≤◌, ◌++◌, ◌↔◌, length, sum, take, drop, IfOk};
ghost use Rattle.std.specs.Prelude.{OnErr, IsErr};
ghost use Rattle.tas_num.specs.Sums.{words, checksum};
ghost use Rattle.segment_fields.specs.Fields.{fields_of};
ghost use Rattle.segment_fields.specs.Bytes.{two, four};
ghost use Rattle.segment_fields.specs.Canon.{canon, canon_len, packet, ip_header, ip_checksum, tcp_fixed, tcp_checksum};
ghost use Rattle.segment_fields.specs.Canon.{borne_mss, borne_scale, mss_bytes, scale_bytes, option_bytes};
ghost use Rattle.segment_fields.specs.Canon.{offset_byte, halves as model_halves};

use crate::segment::Segment;
use tas_num::Sum16;

/// The buffer is shorter than the packet.
#[derive(Clone, Copy, PartialEq, Eq, Debug)]
pub struct NoRoom;

/// Writes the one packet of a segment at the front of `buf`, and answers its length in bytes: 40, 4 more with an MSS, 4
/// more with a window scale, and the payload (RFC 791, section 3.1; RFC 9293, section 3.1; RFC 7323, section 2.2). Both
/// options are written in a SYN alone.
///
/// `NoRoom` comes where `buf` is shorter than the packet; then it is as before.
pub fn write(seg: &Segment<'_>, buf: &mut [u8]) -> Result<usize, NoRoom>
    requires { length seg.now.payload.now ≤ 65487 }
    ensures text { IfOk result (λ n. buf.new ≡ canon (fields_of seg.now) ++ drop n buf.old) }
    ensures len { IfOk result (λ n. n ≡ canon_len (fields_of seg.now)) }
    ensures no_room { IsErr result ↔ (length buf.old < canon_len (fields_of seg.now)) }
    ensures err { OnErr result (buf.new ≡ buf.old) }
{
    match (borne_mss_of(seg), borne_scale_of(seg)) {
        (Some(mss), Some(shift)) => {
            let [high, low] = half_bytes(mss);
            write_with(seg, &[2, 4, high, low, 1, 3, 3, shift], buf)
        }
        (Some(mss), None) => {
            let [high, low] = half_bytes(mss);
            write_with(seg, &[2, 4, high, low], buf)
        }
        (None, Some(shift)) => write_with(seg, &[1, 3, 3, shift], buf),
        (None, None) => write_with(seg, &[], buf),
    }
}

/// The MSS that the packet bears.
fn borne_mss_of(seg: &Segment<'_>) -> Option<u16>
    ensures { result ≡ borne_mss (fields_of seg.now) }
{
    if seg.flags.is_syn() { seg.mss } else { None }
}

/// The shift of windows that the packet bears.
fn borne_scale_of(seg: &Segment<'_>) -> Option<u8>
    ensures { result ≡ borne_scale (fields_of seg.now) }
{
    if seg.flags.is_syn() { seg.scale } else { None }
}

/// Writes the packet with these options.
fn write_with(seg: &Segment<'_>, option: &[u8], buf: &mut [u8]) -> Result<usize, NoRoom>
    requires small { length option.now + length seg.now.payload.now ≤ 65495 }
    requires aligned { length option.now % 4 ≡ 0 }
    requires short { length option.now ≤ 8 }
    ensures text { IfOk result (λ n. buf.new ≡ packet (fields_of seg.now) option.now ++ drop n buf.old) }
    ensures len { IfOk result (λ n. n ≡ 40 + length option.now + length seg.now.payload.now) }
    ensures no_room { IsErr result ↔ (length buf.old < 40 + length option.now + length seg.now.payload.now) }
    ensures err { OnErr result (buf.new ≡ buf.old) }
{
    let start = 40 + option.len();
    let total = start + seg.payload.len();
    if buf.len() < total {
        return Err(NoRoom);
    }
    let sum = ip_sum(total as u16, seg.src, seg.dst);
    put(buf, 0, &ip_bytes(total as u16, sum, seg.src, seg.dst));
    let offset = ((20 + option.len()) / 4 * 16) as u8;
    let sum = tcp_sum(seg, offset, option);
    put(buf, 20, &tcp_bytes(seg, offset, sum));
    put(buf, 40, option);
    put(buf, start, seg.payload);
    Ok(total)
}

/// Writes a piece behind what stands at the front.
fn put(buf: &mut [u8], at: usize, piece: &[u8])
    requires { at + length piece.now ≤ length buf.old }
    ensures { buf.new ≡ take at buf.old ++ (piece.now ++ drop (at + length piece.now) buf.old) }
{
    let end = at + piece.len();
    buf[at..end].copy_from_slice(piece);
}

/// The IPv4 header with this total length and this checksum.
#[tactic(auto, unfolding(crate::specs::Canon::ip_header))]
fn ip_bytes(total: u16, sum: u16, src: u32, dst: u32) -> [u8; 20]
    ensures { result ≡ ip_header total sum src dst }
{
    let [t0, t1] = half_bytes(total);
    let [c0, c1] = half_bytes(sum);
    let [s0, s1, s2, s3] = word_bytes(src);
    let [d0, d1, d2, d3] = word_bytes(dst);
    [
        69, 0, t0, t1, 0, 0, 64, 0, 64, 6, c0, c1, s0, s1, s2, s3, d0, d1, d2, d3,
    ]
}

/// The checksum of the IPv4 header.
fn ip_sum(total: u16, src: u32, dst: u32) -> u16
    ensures { result ≡ ip_checksum total src dst }
{
    let mut sum = Sum16::new();
    sum.add_bytes(&ip_bytes(total, 0, src, dst));
    sum.finish()
}

/// The fixed part of the TCP header, with this data offset byte and checksum.
#[tactic(auto, unfolding(crate::specs::Canon::tcp_fixed))]
fn tcp_bytes(seg: &Segment<'_>, offset: u8, sum: u16) -> [u8; 20]
    ensures { result ≡ tcp_fixed (fields_of seg.now) offset sum }
{
    let [s0, s1] = half_bytes(seg.sport);
    let [d0, d1] = half_bytes(seg.dport);
    let [q0, q1, q2, q3] = word_bytes(seg.seq.0);
    let [a0, a1, a2, a3] = word_bytes(seg.ack.0);
    let [w0, w1] = half_bytes(seg.window);
    let [c0, c1] = half_bytes(sum);
    [
        s0,
        s1,
        d0,
        d1,
        q0,
        q1,
        q2,
        q3,
        a0,
        a1,
        a2,
        a3,
        offset,
        seg.flags.0,
        w0,
        w1,
        c0,
        c1,
        0,
        0,
    ]
}

/// The checksum of TCP, with this data offset byte and these options.
fn tcp_sum(seg: &Segment<'_>, offset: u8, option: &[u8]) -> u16
    requires small { length option.now + length seg.now.payload.now < 2 ^ 16 }
    requires offset { offset ≡ offset_byte option.now }
    ensures { result ≡ tcp_checksum (fields_of seg.now) option.now }
{
    let len = 20 + option.len() as u64 + seg.payload.len() as u64;
    let pseudo = halves(seg.src) + halves(seg.dst) + 6 + len;
    let mut sum = Sum16::starting(pseudo);
    sum.add_bytes(&tcp_bytes(seg, offset, 0));
    sum.add_bytes(option);
    sum.add_bytes(seg.payload);
    sum.finish()
}

/// The sum of both halves of a number.
fn halves(n: u32) -> u64
    ensures { result ≡ model_halves n }
{
    u64::from(n / 65536) + u64::from(n % 65536)
}

/// A number's bytes in network order.
fn half_bytes(n: u16) -> [u8; 2]
    ensures { result ≡ two n }
{
    [(n / 256) as u8, (n % 256) as u8]
}

/// A number's bytes in network order.
fn word_bytes(n: u32) -> [u8; 4]
    ensures { result ≡ four n }
{
    [
        (n / 16777216) as u8,
        (n / 65536 % 256) as u8,
        (n / 256 % 256) as u8,
        (n % 256) as u8,
    ]
}

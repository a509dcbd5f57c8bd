//! A packet is read, or refused by the first rule that it breaks.

ghost use Rattle.std.specs.Prelude.{◌≡◌, ℕ, ◌+◌, ◌-◌, ◌*◌, ◌<◌, ◌≤◌, ◌^◌, Some, None, MatchResult, IfOk, IfErr, length};
ghost use Rattle.std.specs.Prelude.{true, false, slice_range, sum};
ghost use Rattle.tas_num.specs.Sums.{words};
ghost use Rattle.segment_fields.specs.Bytes.{half};
ghost use Rattle.segment_fields.specs.Text.{IsText, refusal, is_wrong, mss_of, scale_of, data_offset};
ghost use Rattle.segment_fields.specs.Options.{IsInside, options_past, option_at, read_shift};
ghost use Rattle.segment_fields.specs.Options.{first_mss, first_scale};

use crate::bytes::{half_at, word_at};
use crate::segment::{FirstOption, Flags, Refused, Segment, SynOptions};
use tas_num::{Seq, Sum16};

/// The segment that the bytes of an IPv4 packet spell, or the first rule that they break. The checksums are looked at
/// where `check_sums` says so.
/// Reserved bits, the urgent pointer, other options and the fields of IPv4 that a `Segment` doesn't name are dropped,
/// and so are bytes past the total length.
#[tactic(auto, unfolding(crate::specs::Text::refusal))]
pub fn read(bytes: &[u8], check_sums: bool) -> Result<Segment<'_>, Refused>
    ensures text { IfOk result (IsText bytes.now) }
    ensures accepted { IfOk result (λ _. refusal check_sums bytes.now ≡ None) }
    ensures refused { IfErr result (λ r. refusal check_sums bytes.now ≡ Some r) }
{
    if bytes.len() < 20 {
        return Err(Refused::Short);
    }
    if bytes[0] / 16 != 4 {
        return Err(Refused::NotIpv4);
    }
    let ip_len = 4 * (bytes[0] % 16) as usize;
    if ip_len < 20 || bytes.len() < ip_len {
        return Err(Refused::HeaderLength);
    }
    let total_len = half_at(bytes, 2) as usize;
    if total_len < ip_len || bytes.len() < total_len {
        return Err(Refused::TotalLength);
    }
    if half_at(bytes, 6) % 16384 != 0 {
        return Err(Refused::Fragment);
    }
    if bytes[9] != 6 {
        return Err(Refused::NotTcp);
    }
    if check_sums && is_wrong_sum(0, &bytes[..ip_len]) {
        return Err(Refused::IpSum);
    }
    let tcp = &bytes[ip_len..total_len];
    if tcp.len() < 20 {
        return Err(Refused::DataOffset);
    }
    let offset = 4 * (tcp[12] / 16) as usize;
    if offset < 20 || tcp.len() < offset {
        return Err(Refused::DataOffset);
    }
    if check_sums && is_wrong_sum(pseudo(bytes, tcp.len()), tcp) {
        return Err(Refused::TcpSum);
    }
    let SynOptions { mss, scale } = syn_options(tcp, offset);
    Ok(Segment {
        src: word_at(bytes, 12),
        dst: word_at(bytes, 16),
        sport: half_at(tcp, 0),
        dport: half_at(tcp, 2),
        seq: Seq(word_at(tcp, 4)),
        ack: Seq(word_at(tcp, 8)),
        flags: Flags(tcp[13]),
        window: half_at(tcp, 14),
        mss,
        scale,
        payload: &tcp[offset..],
    })
}

/// Which checksum is wrong of a packet that reads where none is looked at (RFC 791, section 3.1; RFC 9293, section
/// 3.1). No other rule is tried again.
#[tactic(auto, unfolding(crate::specs::Text::refusal))]
pub fn wrong_sum(bytes: &[u8]) -> Option<Refused>
    requires reads { refusal false bytes.now ≡ None }
    ensures { result ≡ refusal true bytes.now }
{
    let ip_len = 4 * (bytes[0] % 16) as usize;
    if is_wrong_sum(0, &bytes[..ip_len]) {
        return Some(Refused::IpSum);
    }
    let tcp = &bytes[ip_len..half_at(bytes, 2) as usize];
    if is_wrong_sum(pseudo(bytes, tcp.len()), tcp) {
        return Some(Refused::TcpSum);
    }
    None
}

/// The sum of the pseudo-header's words.
fn pseudo(bytes: &[u8], tcp_len: usize) -> u64
    requires room { 20 ≤ length bytes.now }
    requires small { tcp_len < 2 ^ 16 }
    ensures { result ≡ half bytes.now 12 + half bytes.now 14 + half bytes.now 16 + half bytes.now 18 + 6 + tcp_len }
{
    u64::from(half_at(bytes, 12))
        + u64::from(half_at(bytes, 14))
        + u64::from(half_at(bytes, 16))
        + u64::from(half_at(bytes, 18))
        + 6
        + tcp_len as u64
}

/// Whether the words of these bytes, after words of the sum `start`, do not sum to a positive multiple of 65535.
fn is_wrong_sum(start: u64, bytes: &[u8]) -> bool
    requires start { start < 2 ^ 32 }
    requires small { length bytes.now < 2 ^ 17 }
    ensures { result ≡ is_wrong (start + sum (words bytes.now)) }
{
    let mut total = Sum16::starting(start);
    total.add_bytes(bytes);
    total.finish() != 0
}

/// What the options of a SYN say; those of another segment say nothing.
#[tactic(auto, unfolding(crate::specs::Text::mss_of, crate::specs::Text::scale_of))]
fn syn_options(tcp: &[u8], offset: usize) -> SynOptions
    requires offset { offset ≡ data_offset tcp.now }
    requires least { 20 ≤ offset }
    requires room { offset ≤ length tcp.now }
    ensures mss { result.mss ≡ mss_of tcp.now }
    ensures scale { result.scale ≡ scale_of tcp.now }
{
    if Flags(tcp[13]).is_syn() {
        first_of_each(&tcp[20..offset])
    } else {
        SynOptions {
            mss: None,
            scale: None,
        }
    }
}

/// The first MSS and the first window scale among the options.
fn first_of_each(options: &[u8]) -> SynOptions
    ensures mss { result.mss ≡ first_mss (options_past 0 options.now) }
    ensures scale { result.scale ≡ first_scale (options_past 0 options.now) }
{
    let mut mss = None;
    let mut scale = None;
    let mut rest = options;
    while !rest.is_empty() {
        match first_option(rest) {
            FirstOption::Ends => break,
            FirstOption::Mss(size) => {
                mss = mss.or(Some(size));
                rest = &rest[4..];
            }
            FirstOption::Scale(shift) => {
                scale = scale.or(Some(shift));
                rest = &rest[3..];
            }
            FirstOption::Skips(count) => rest = &rest[count..],
        }
    }
    SynOptions { mss, scale }
}

/// What the first option says.
fn first_option(options: &[u8]) -> FirstOption
    requires { 0 < length options.now }
    ensures text { result ≡ option_at options.now }
    ensures inside { IsInside options.now result }
{
    let kind = options[0];
    if kind == 0 {
        return FirstOption::Ends;
    }
    if kind == 1 {
        return FirstOption::Skips(1);
    }
    if options.len() < 2 {
        return FirstOption::Ends;
    }
    let len = options[1];
    if len < 2 || options.len() < len as usize {
        return FirstOption::Ends;
    }
    if kind == 2 && len == 4 {
        return FirstOption::Mss(half_at(options, 2));
    }
    if kind == 3 && len == 3 {
        return FirstOption::Scale(shift(options[2]));
    }
    FirstOption::Skips(len as usize)
}

/// A shift as it is read: 14 at most (RFC 7323, section 2.3).
fn shift(written: u8) -> u8
    ensures { result ≡ read_shift written }
{
    written.min(14)
}

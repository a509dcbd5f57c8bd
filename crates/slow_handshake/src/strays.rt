//! The answer to a segment of no flow (RFC 9293, section 3.10.7.1).

ghost use Rattle.std.specs.Prelude.{◌≡◌, ◌+◌, ◌%◌, ◌^◌, None};
ghost use Rattle.tas_model.specs.Segments.{seg_len};
ghost use Rattle.flow_state.specs.Calls.{seg_of};
ghost use Rattle.slow_handshake.specs.Strays.{stray_answer};

use segment_fields::{Flags, Segment};
use tas_model::Head;
use tas_num::Seq;

/// The sequence number behind the segment: SYN and FIN take one each (RFC 9293, section 3.4).
fn end_of(seg: &Segment<'_>) -> Seq
    ensures { result.0 ≡ (seg.now.seq.0 + seg_len (seg_of seg.now)) % 2 ^ 32 }
{
    let payload = (seg.payload.len() % 0x1_0000_0000) as u32;
    seg.seq
        .plus(payload)
        .plus(u32::from(seg.flags.is_syn()))
        .plus(u32::from(seg.flags.is_fin()))
}

/// The answer to a segment that no flow is there for, at a port where a listener is or none is (RFC 9293, sections
/// 3.10.7.1 and 3.10.7.2). Its ports are those of the segment, turned round.
///
/// Without a listener: `None` to a reset, and else a reset that the sender takes. With one: a reset to an
/// acknowledgement, and else `None`. What a SYN opens at a listener is no matter of this function.
pub fn stray(seg: &Segment<'_>, listening: bool) -> Option<Head>
    ensures { result ≡ stray_answer (seg_of seg.now) listening }
{
    if seg.flags.is_rst() {
        None
    } else if seg.flags.is_ack() {
        Some(reset(Flags::RST, seg.ack, Seq(0)))
    } else if listening {
        None
    } else {
        Some(reset(Flags(20), Seq(0), end_of(seg)))
    }
}

/// A reset, which has neither window nor options.
pub fn reset(flags: Flags, seq: Seq, ack: Seq) -> Head
    ensures { result ≡ record { flags = flags.0; seq = seq; ack = ack; window = 0; mss = None; scale = None } }
{
    Head {
        flags: flags.0,
        seq,
        ack,
        window: 0,
        mss: None,
        scale: None,
    }
}

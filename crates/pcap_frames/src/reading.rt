//! Captures are read, record by record.

ghost use Rattle.std.specs.Prelude.{◌≡◌, ℕ, ◌+◌, ◌<◌, ◌≤◌, ◌↔◌, Some, None, Ok, Err, IsOkAnd, IsNone, IfOk, IfErr};
ghost use Rattle.std.specs.Prelude.{IfSome, IfNone, length, drop, option_copied};
ghost use Rattle.tas_num.specs.Captures.{form_of, form_by, nanos_by, first_record, packet_of, is_ipv4_frame};
ghost use Rattle.pcap_frames.specs.Views.{fault_in, form_in, next_in, record_in};

use crate::capture::{CaptureHeader, PcapRefused, RecordView};
use crate::numbers::{half_at, word_at};

/// What the file header of a capture tells, of which these are the bytes (draft-ietf-opsawg-pcap, section 4).
/// It is refused with `CutShort(0)`, `Magic`, `Version` or `LinkType`, the first of these that holds.
#[tactic(auto, unfolding(tas_num::specs::Captures::form_of))]
pub fn read_header(bytes: &[u8]) -> Result<CaptureHeader, PcapRefused>
    ensures form { IfOk result (λ header. form_of bytes.now ≡ Ok (form_in header)) }
    ensures len { IfOk result (λ _. 24 ≤ length bytes.now) }
    ensures refused { IfErr result (λ fault. form_of bytes.now ≡ Err (fault_in fault)) }
{
    if bytes.len() < 24 {
        return Err(PcapRefused::CutShort(0));
    }
    if let Some(nanos) = nanos_at(bytes, false) {
        return header_by(bytes, false, nanos);
    }
    match nanos_at(bytes, true) {
        Some(nanos) => header_by(bytes, true, nanos),
        None => Err(PcapRefused::Magic),
    }
}

/// Whether the magic number says nanoseconds, where it is one in this byte order.
fn nanos_at(bytes: &[u8], big: bool) -> Option<bool>
    requires { 24 ≤ length bytes.now }
    ensures { result ≡ nanos_by big bytes.now }
{
    match word_at(bytes, 0, big) {
        0xa1b2_c3d4 => Some(false),
        0xa1b2_3c4d => Some(true),
        _ => None,
    }
}

/// The file header, where its byte order and its resolution are known.
fn header_by(bytes: &[u8], big: bool, nanos: bool) -> Result<CaptureHeader, PcapRefused>
    requires { 24 ≤ length bytes.now }
    ensures form { IfOk result (λ header. form_by big nanos bytes.now ≡ Ok (form_in header)) }
    ensures refused { IfErr result (λ fault. form_by big nanos bytes.now ≡ Err (fault_in fault)) }
{
    if half_at(bytes, 4, big) != 2 || half_at(bytes, 6, big) != 4 {
        return Err(PcapRefused::Version);
    }
    let link = word_at(bytes, 20, big);
    if link != 1 && link != 101 {
        return Err(PcapRefused::LinkType);
    }
    Ok(CaptureHeader { big, nanos, link })
}

/// The record that begins at the place `at` of a capture's bytes, named by `number`; none at their end
/// (draft-ietf-opsawg-pcap, section 5).
/// It is refused with `CutShort` or `TooLong`, as the grammar of captures says of the bytes from `at` on.
#[tactic(auto, unfolding(tas_num::specs::Captures::first_record))]
pub fn next_record<'a>(
    header: &CaptureHeader,
    bytes: &'a [u8],
    at: usize,
    number: u32,
) -> Result<Option<RecordView<'a>>, PcapRefused>
    requires { at ≤ length bytes.now }
    ensures ended { IsOkAnd result (λ found. IsNone found) ↔ (at ≡ length bytes.now) }
    ensures none { IfOk result (λ found. IfNone found
        (first_record (form_in header.now) number (drop at bytes.now) ≡ Ok None)) }
    ensures found { IfOk result
        (λ found. IfSome found (λ view. first_record (form_in header.now) number (drop at bytes.now)
        ≡ Ok (Some (next_in bytes.now view)))) }
    ensures refused { IfErr result (λ fault. first_record (form_in header.now) number (drop at bytes.now)
        ≡ Err (fault_in fault)) }
    ensures next { IfOk result (λ found. IfSome found (λ view. (at + 16 ≤ view.next)
        × (view.next ≤ length bytes.now))) }
{
    let rest = &bytes[at..];
    if rest.is_empty() {
        return Ok(None);
    }
    if rest.len() < 16 {
        return Err(PcapRefused::CutShort(number));
    }
    let captured = word_at(rest, 8, header.big);
    if captured > 65_549 {
        return Err(PcapRefused::TooLong(number));
    }
    let len = 16 + captured as usize;
    if rest.len() < len {
        return Err(PcapRefused::CutShort(number));
    }
    Ok(Some(RecordView {
        number,
        whole: word_at(rest, 12, header.big) <= captured,
        frame: &rest[16..len],
        next: at + len,
    }))
}

/// The packet in a record of a capture with this header. None where the record is passed over: its packet wasn't
/// captured whole, or it is of an Ethernet type
/// other than IPv4.
pub fn packet<'a>(header: &CaptureHeader, view: &RecordView<'a>) -> Option<&'a [u8]>
    ensures packet { IfSome result (λ packet. packet_of (form_in header.now) (record_in view.now) ≡ Some packet.now) }
    ensures passed_over { IfNone result (packet_of (form_in header.now) (record_in view.now) ≡ None) }
{
    if !view.whole {
        return None;
    }
    if header.link == 101 {
        return Some(view.frame);
    }
    if !has_ipv4(view.frame) {
        return None;
    }
    Some(&view.frame[14..])
}

/// Whether an Ethernet frame says that an IPv4 packet follows its 14 bytes.
fn has_ipv4(frame: &[u8]) -> bool
    ensures { result ≡ is_ipv4_frame frame.now }
{
    frame.len() >= 14 && frame[12] == 8 && frame[13] == 0
}

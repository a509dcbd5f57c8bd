//! A record of a capture as the host sees it: a segment that came, one of its own, or a damaged packet.

ghost use Rattle.std.specs.Prelude.{◌≡◌, ◌≤◌, false, Some, None, IfSome, IfNone};
ghost use Rattle.segment_fields.specs.Refusals.{number_of};
ghost use Rattle.segment_fields.specs.Text.{IsText, refusal};
ghost use Rattle.pcap_frames.specs.Views.{form_in, record_in};
ghost use Rattle.tas_runs.specs.Records.{is_other_traffic, due_content, content_of_packet, item_of, is_damaged};
ghost use Rattle.tas_runs.specs.Batches.{tuple_of, is_of};
ghost use Rattle.host_rounds.specs.Hosts.{same_tuple};
ghost use Rattle.capture_items.specs.Items.{content_in, item_in, sends, receives, is_before_sums};

use pcap_frames::{CaptureHeader, RecordView, packet};
use segment_fields::{Refused, Segment, read, wrong_sum};
use tas_model::FourTuple;

/// What a packet is for the host: the four-tuple of a segment is the one that it has as this host sees it.
#[derive(Clone, Copy, Debug)]
pub enum Content<'a> {
    /// The packet comes to the host, and breaks this rule of reading.
    Damaged(Refused),
    /// A segment that another host sent.
    Remote(FourTuple, Segment<'a>),
    /// A segment that this host sent.
    Local(FourTuple, Segment<'a>),
}

/// A record of a capture that is not passed over.
#[derive(Clone, Copy, Debug)]
pub struct Item<'a> {
    /// The record's number, from 1.
    pub number: u32,
    pub content: Content<'a>,
}

impl Item<'_> {
    /// The four-tuple of the item's flow. A packet that breaks a rule of reading is of no flow.
    pub fn tuple(&self) -> Option<FourTuple>
        ensures { result ≡ tuple_of (content_in self.now.content) }
    {
        match self.content {
            Content::Damaged(_) => None,
            Content::Remote(tuple, _) | Content::Local(tuple, _) => Some(tuple),
        }
    }

    /// Whether the item is a segment of this flow.
    pub fn is_of(&self, tuple: &FourTuple) -> bool
        ensures { result ≡ is_of tuple.now (item_in self.now) }
    {
        match self.tuple() {
            Some(other) => is_same_tuple(tuple, &other),
            None => false,
        }
    }

    /// Whether it is a packet that breaks a rule of reading.
    pub fn is_damaged(&self) -> bool
        ensures { result ≡ is_damaged (item_in self.now) }
    {
        matches!(self.content, Content::Damaged(_))
    }
}

/// Whether two four-tuples are of one flow.
pub fn is_same_tuple(a: &FourTuple, b: &FourTuple) -> bool
    ensures { result ≡ same_tuple a.now b.now }
{
    a.laddr == b.laddr && a.lport == b.lport && a.raddr == b.raddr && a.rport == b.rport
}

/// What a record of a capture with this header is for the host of the address `local`. None where it is passed over: it
/// wasn't captured whole, or it is
/// other traffic than TCP in IPv4, or neither of its addresses is local. With `loose` no checksum is looked at.
pub fn read_item<'a>(
    header: &CaptureHeader,
    view: &RecordView<'a>,
    local: u32,
    loose: bool,
) -> Option<Item<'a>>
    ensures taken { IfSome result (λ item. item_of (form_in header.now) local loose (record_in view.now)
        ≡ Some (item_in item)) }
    ensures passed_over { IfNone result (item_of (form_in header.now) local loose (record_in view.now) ≡ None) }
{
    let content = read_content(packet(header, view)?, local, loose)?;
    Some(Item {
        number: view.number,
        content,
    })
}

/// What a packet is for the host. It is read without its checksums, which are looked at afterwards where it comes to
/// the host.
#[tactic(auto, using(crate::proofs::Read::segment_read, crate::proofs::Read::sender_read))]
fn read_content(packet: &[u8], local: u32, loose: bool) -> Option<Content<'_>>
    ensures taken { IfSome result (λ content. content_of_packet local loose packet.now ≡ Some (content_in content)) }
    ensures passed_over { IfNone result (content_of_packet local loose packet.now ≡ None) }
{
    match read(packet, false) {
        Err(rule) if is_other_traffic(rule) => None,
        Err(rule) => Some(broken(packet, loose, rule)),
        Ok(segment) if segment.src == local => Some(Content::Local(
            sender_tuple(&segment),
            segment,
        )),
        Ok(segment) if segment.dst == local => Some(arrived(packet, segment, loose)),
        Ok(_) => None,
    }
}

/// What a packet is that comes to the host, and spells this segment where its checksums are not looked at. They are,
/// unless they are `loose`.
#[tactic(auto, using(crate::proofs::Read::segment_read, crate::proofs::Read::receiver_read))]
fn arrived<'a>(packet: &[u8], segment: Segment<'a>, loose: bool) -> Content<'a>
    requires reads { refusal false packet.now ≡ None }
    requires text { IsText packet.now segment }
    ensures { content_in result ≡ due_content loose packet.now }
{
    if loose {
        return Content::Remote(receiver_tuple(&segment), segment);
    }
    match wrong_sum(packet) {
        Some(rule) => Content::Damaged(rule),
        None => Content::Remote(receiver_tuple(&segment), segment),
    }
}

/// What a packet is that comes to the host, and breaks this rule where its checksums are not looked at.
#[tactic(auto, using(crate::proofs::Read::refused_before_sums))]
fn broken(packet: &[u8], loose: bool, rule: Refused) -> Content<'_>
    requires { refusal false packet.now ≡ Some rule }
    ensures { content_in result ≡ due_content loose packet.now }
{
    if is_before_sums(rule) {
        Content::Damaged(rule)
    } else {
        due(packet, loose)
    }
}

/// What a packet is that comes to the host, its checksums looked at unless they are `loose`.
#[tactic(auto, using(crate::proofs::Read::segment_read, crate::proofs::Read::receiver_read))]
fn due(packet: &[u8], loose: bool) -> Content<'_>
    ensures { content_in result ≡ due_content loose packet.now }
{
    match read(packet, !loose) {
        Err(rule) => Content::Damaged(rule),
        Ok(segment) => Content::Remote(receiver_tuple(&segment), segment),
    }
}

/// Whether a packet that breaks this rule is no IPv4, a fragment, or no TCP.
fn is_other_traffic(rule: Refused) -> bool
    ensures { result ≡ is_other_traffic (number_of rule) }
{
    matches!(rule, Refused::NotIpv4 | Refused::Fragment | Refused::NotTcp)
}

/// Whether a rule is tried before any checksum is looked at.
fn is_before_sums(rule: Refused) -> bool
    ensures { result ≡ is_before_sums rule }
{
    !matches!(rule, Refused::IpSum | Refused::DataOffset | Refused::TcpSum)
}

/// The four-tuple of a segment as its sender sees it.
pub(crate) fn sender_tuple(segment: &Segment<'_>) -> FourTuple
    ensures { result ≡ sends segment.now }
{
    FourTuple {
        laddr: segment.src,
        lport: segment.sport,
        raddr: segment.dst,
        rport: segment.dport,
    }
}

/// The four-tuple of a segment as the host sees it that it goes to.
fn receiver_tuple(segment: &Segment<'_>) -> FourTuple
    ensures { result ≡ receives segment.now }
{
    FourTuple {
        laddr: segment.dst,
        lport: segment.dport,
        raddr: segment.src,
        rport: segment.sport,
    }
}

//! A segment's fields, and the rules that a packet can break.

ghost use Rattle.std.specs.Prelude.{◌≡◌, ◌<◌, bit_or};
ghost use Rattle.segment_fields.specs.ControlBits.{fin, syn, rst, psh, ack, urg, ece, cwr, has};

use tas_num::Seq;

/// The control bits of a segment (RFC 9293, section 3.1).
#[derive(Clone, Copy, PartialEq, Eq, Debug)]
pub struct Flags(pub u8);

impl Flags {
    /// No more bytes follow from the sender.
    pub const FIN: Flags = Flags(1);
    /// The sequence number is the first one, and the first byte has the next.
    pub const SYN: Flags = Flags(2);
    /// The connection is reset.
    pub const RST: Flags = Flags(4);
    /// The bytes are to be handed on at once.
    pub const PSH: Flags = Flags(8);
    /// The acknowledgement number counts.
    pub const ACK: Flags = Flags(16);
    /// The urgent pointer counts.
    pub const URG: Flags = Flags(32);
    /// Congestion was met on the way, or ECN is offered (RFC 3168, section 6.1).
    pub const ECE: Flags = Flags(64);
    /// The congestion window was reduced (RFC 3168, section 6.1).
    pub const CWR: Flags = Flags(128);

    /// These flags and those.
    pub fn with(self, those: Flags) -> Flags
        ensures { result.0 ≡ bit_or self.0 those.0 }
    {
        Flags(self.0 | those.0)
    }

    /// Whether FIN is set.
    pub fn is_fin(self) -> bool
        ensures { result ≡ has self.0 fin }
    {
        self.has(Flags::FIN)
    }

    /// Whether SYN is set.
    pub fn is_syn(self) -> bool
        ensures { result ≡ has self.0 syn }
    {
        self.has(Flags::SYN)
    }

    /// Whether RST is set.
    pub fn is_rst(self) -> bool
        ensures { result ≡ has self.0 rst }
    {
        self.has(Flags::RST)
    }

    /// Whether PSH is set.
    pub fn is_psh(self) -> bool
        ensures { result ≡ has self.0 psh }
    {
        self.has(Flags::PSH)
    }

    /// Whether ACK is set.
    pub fn is_ack(self) -> bool
        ensures { result ≡ has self.0 ack }
    {
        self.has(Flags::ACK)
    }

    /// Whether URG is set.
    pub fn is_urg(self) -> bool
        ensures { result ≡ has self.0 urg }
    {
        self.has(Flags::URG)
    }

    /// Whether ECE is set.
    pub fn is_ece(self) -> bool
        ensures { result ≡ has self.0 ece }
    {
        self.has(Flags::ECE)
    }

    /// Whether CWR is set.
    pub fn is_cwr(self) -> bool
        ensures { result ≡ has self.0 cwr }
    {
        self.has(Flags::CWR)
    }

    /// Whether one of the bits above is set.
    fn has(self, bit: Flags) -> bool
        requires { 0 < bit.0 }
        ensures { result ≡ has self.0 bit.0 }
    {
        self.0 / bit.0 % 2 == 1
    }
}

/// A TCP segment in an IPv4 packet: what its headers say, and its payload.
#[derive(Clone, Copy, Debug)]
pub struct Segment<'a> {
    /// The IPv4 address that it comes from.
    pub src: u32,
    /// The IPv4 address that it goes to.
    pub dst: u32,
    /// The port that it comes from.
    pub sport: u16,
    /// The port that it goes to.
    pub dport: u16,
    /// The sequence number of its first byte, or of its SYN.
    pub seq: Seq,
    /// The acknowledgement number, which counts with ACK set.
    pub ack: Seq,
    pub flags: Flags,
    /// How many bytes its sender has room for; of a segment without SYN by the shift that its SYN bore.
    pub window: u16,
    /// The largest payload that its sender takes in one segment, in bytes; it counts in a SYN alone.
    pub mss: Option<u16>,
    /// The shift by which its sender's later windows count (RFC 7323, section 2.2); it counts in a SYN alone. What was
    /// read is 14 at most (section 2.3).
    pub scale: Option<u8>,
    pub payload: &'a [u8],
}

/// Why some bytes are no packet with a TCP segment: the first rule of reading that they break.
#[derive(Clone, Copy, PartialEq, Eq, Debug)]
pub enum Refused {
    /// There are fewer than 20 bytes.
    Short,
    /// The version isn't 4.
    NotIpv4,
    /// The IPv4 header is shorter than 20 bytes or longer than all bytes.
    HeaderLength,
    /// The total length is below that of the IPv4 header or above all bytes.
    TotalLength,
    /// More fragments follow, or the fragment offset isn't 0.
    Fragment,
    /// The protocol isn't 6.
    NotTcp,
    /// The checksum of the IPv4 header is wrong.
    IpSum,
    /// There are fewer than 20 bytes of TCP, or its header is shorter than 20 bytes or longer than these.
    DataOffset,
    /// The checksum of TCP is wrong.
    TcpSum,
}

impl Refused {
    ghost use Rattle.segment_fields.specs.Refusals.{number_of};

    /// The rule's number, from 1 to 9 in the order in which the rules are tried.
    pub fn number(self) -> u8
        ensures { result ≡ number_of self }
    {
        match self {
            Refused::Short => 1,
            Refused::NotIpv4 => 2,
            Refused::HeaderLength => 3,
            Refused::TotalLength => 4,
            Refused::Fragment => 5,
            Refused::NotTcp => 6,
            Refused::IpSum => 7,
            Refused::DataOffset => 8,
            Refused::TcpSum => 9,
        }
    }
}

/// What the first of some options says.
pub enum FirstOption {
    /// No option follows.
    Ends,
    /// It is a maximum segment size, in bytes.
    Mss(u16),
    /// It is a window scale: this shift, 14 at most.
    Scale(u8),
    /// It is another option, with this many bytes.
    Skips(usize),
}

/// What the options of a SYN say.
pub struct SynOptions {
    /// The largest payload that its sender takes in one segment, in bytes.
    pub mss: Option<u16>,
    /// The shift by which its sender's later windows count, 14 at most.
    pub scale: Option<u8>,
}

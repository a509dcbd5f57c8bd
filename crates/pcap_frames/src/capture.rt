//! What the header of a capture tells, and what refuses one.

ghost use Rattle.std.specs.Prelude.{◌≡◌};
ghost use Rattle.tas_num.specs.Captures.{record_of};

/// What the file header of a capture tells.
#[derive(Clone, Copy, PartialEq, Eq, Debug)]
pub struct CaptureHeader {
    /// Whether the most significant byte of each number is the first.
    pub big: bool,
    /// Whether timestamps count nanoseconds; else they count microseconds.
    pub nanos: bool,
    /// The link type: 1 for Ethernet, 101 for raw IP.
    pub link: u32,
}

/// A record of a capture, at its place in the file.
#[derive(Clone, Copy, Debug)]
pub struct RecordView<'a> {
    /// The record's number, from 1.
    pub number: u32,
    /// Whether the whole packet was captured.
    pub whole: bool,
    /// The bytes captured.
    pub frame: &'a [u8],
    /// The place behind the record, in bytes from the beginning of the file.
    pub next: usize,
}

/// Why some bytes are no capture. A record is named by its number; the number 0 is the file header.
#[derive(Clone, Copy, PartialEq, Eq, Debug)]
pub enum PcapRefused {
    /// The magic number is neither a1b2c3d4 nor a1b23c4d, in either byte order.
    Magic,
    /// The version isn't 2.4.
    Version,
    /// The link type is neither 1 nor 101.
    LinkType,
    /// The bytes end before the file header, or before this record, does.
    CutShort(u32),
    /// The captured length of this record is above 65,549 bytes.
    TooLong(u32),
}

impl PcapRefused {
    ghost use Rattle.pcap_frames.specs.Views.{number_of, fault_in};

    /// The refusal's number, from 1 to 5 in the order above.
    pub fn number(self) -> u8
        ensures { result ≡ number_of self }
    {
        match self {
            PcapRefused::Magic => 1,
            PcapRefused::Version => 2,
            PcapRefused::LinkType => 3,
            PcapRefused::CutShort(_) => 4,
            PcapRefused::TooLong(_) => 5,
        }
    }

    /// The number of the record that is refused, or 0 for the file header.
    pub fn record(self) -> u32
        ensures { result ≡ record_of (fault_in self) }
    {
        match self {
            PcapRefused::Magic | PcapRefused::Version | PcapRefused::LinkType => 0,
            PcapRefused::CutShort(number) | PcapRefused::TooLong(number) => number,
        }
    }
}

//! What a capture holds for one host: its records in order, and the first numbers of its flows.

ghost use Rattle.std.specs.Prelude.{◌≤◌, length, IfOk, IfErr};
ghost use Rattle.capture_items.specs.Found.{IsFound, IsNoCapture};

use crate::reader::ItemReader;
use crate::starts::{FlowStarts, Numbering};
use pcap_frames::{PcapRefused, next_record, read_header};
use std::alloc::Global;

/// What a capture holds for one host.
#[derive(Drop)]
pub struct Found<'a> {
    /// The records that are not passed over, in their order.
    pub items: ItemReader<'a>,
    /// What they show of the starts of flows.
    pub starts: FlowStarts,
    /// How many records the capture has.
    pub records: u32,
}

/// Why the items of a capture were not found.
#[derive(Clone, Copy, PartialEq, Eq, Debug)]
pub enum InputFault {
    OutOfMemory,
    /// The bytes are no capture.
    Refused(PcapRefused),
}

/// What the capture of these bytes holds for the host of the address `local`. With `loose` no checksum is looked at.
/// It goes over all records once, without a look at a checksum, and keeps the starts alone.
/// Bytes that are no capture are refused, with the first fault in them; want of memory is told where it comes first.
pub fn find_items<'a>(
    alloc: Global,
    bytes: &'a [u8],
    local: u32,
    loose: bool,
) -> Result<Found<'a>, InputFault>
    requires { length bytes.now ≤ 67108864 }
    ensures found { IfOk result (IsFound bytes.now local loose) }
    ensures few { IfOk result (λ found. length found.items ≤ found.records) }
    ensures refused { IfErr result (IsNoCapture bytes.now) }
{
    let header = match read_header(bytes) {
        Ok(header) => header,
        Err(fault) => return Err(InputFault::Refused(fault)),
    };
    let mut numbering = Numbering::new(alloc);
    let mut records = 0;
    let mut at = 24;
    loop {
        match next_record(&header, bytes, at, records + 1) {
            Ok(Some(view)) => {
                at = view.next;
                records += 1;
                if numbering.take_up(&header, &view, local).is_err() {
                    return Err(InputFault::OutOfMemory);
                }
            }
            Ok(None) => {
                return Ok(Found {
                    items: ItemReader::new(header, bytes, local, loose),
                    starts: numbering.finish(),
                    records,
                });
            }
            Err(fault) => return Err(InputFault::Refused(fault)),
        }
    }
}

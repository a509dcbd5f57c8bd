//! The items of a capture, read where they stand.

ghost use Rattle.std.specs.Prelude.{◌≡◌, ◌+◌, ◌≤◌, [], ◌∷◌, IfSome, IfNone, IsOk, length, drop};
ghost use Rattle.tas_num.specs.Captures.{records_from};
ghost use Rattle.pcap_frames.specs.Views.{form_in};
ghost use Rattle.capture_items.specs.Items.{item_in, items_from};

use crate::item::{Item, read_item};
use pcap_frames::{CaptureHeader, next_record};
use std::marker::Model;

/// A place in a capture, seen as the list of the items from there on. They are read where they stand.
#[derive(Drop)]
pub struct ItemReader<'a> {
    header: CaptureHeader,
    bytes: &'a [u8],
    at: usize,
    /// How many records stand before the place.
    records: u32,
    local: u32,
    loose: bool,
}

impl<'a> Model for ItemReader<'a> {
    ghost use Rattle.std.specs.Prelude.{◌+◌, List, drop};
    ghost use Rattle.pcap_frames.specs.Views.{form_in};
    ghost use Rattle.tas_runs.specs.Records.{Item};
    ghost use Rattle.capture_items.specs.Items.{items_from};

    ghost Value = { List Item };

    ghost use Rattle.capture_items.specs.Reading.{IsReadable};

    ghost view = { λ r. items_from (form_in r.header) r.local r.loose (r.records + 1) (drop r.at r.bytes.now) };

    ghost invariant = { IsReadable };
}

impl<'a> ItemReader<'a> {
    /// All items of a capture with this header, for the host of the address `local`. With `loose` no checksum is looked
    /// at.
    pub(crate) fn new(
        header: CaptureHeader,
        bytes: &'a [u8],
        local: u32,
        loose: bool,
    ) -> ItemReader<'a>
        requires place { 24 ≤ length bytes.now }
        requires small { length bytes.now ≤ 67108864 }
        requires whole { IsOk (records_from (form_in header) 1 (drop 24 bytes.now)) }
        ensures { result ≡ items_from (form_in header) local loose 1 (drop 24 bytes.now) }
    {
        ItemReader {
            header,
            bytes,
            at: 24,
            records: 0,
            local,
            loose,
        }
    }

    /// The next item, where there is one more.
    pub fn next_item(&mut self) -> Option<Item<'a>>
        ensures some { IfSome result (λ item. self.old ≡ item_in item ∷ self.new) }
        ensures none { IfNone result (self.old ≡ []) }
        ensures done { IfNone result (self.new ≡ []) }
    {
        loop {
            let view = match next_record(&self.header, self.bytes, self.at, self.records + 1) {
                Ok(Some(view)) => view,
                Ok(None) => return None,
                Err(_) => unreachable!(),
            };
            self.at = view.next;
            self.records += 1;
            if let Some(item) = read_item(&self.header, &view, self.local, self.loose) {
                return Some(item);
            }
        }
    }
}

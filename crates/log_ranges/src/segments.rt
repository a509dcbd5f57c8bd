//! Segments and frames that are held.

ghost use Rattle.std.specs.Prelude.{◌<◌, ◌^◌, IfSome};
ghost use Rattle.flow_state.specs.Views.{seen_seg};
ghost use Rattle.log_ranges.specs.Ranges.{AreBytes, HeadFits, SegFits, FrameFits};

use flow_state::SegView;
use tas_model::{FrameId, Head, Seg};
use tas_num::Seq;

/// Each byte is one.
pub(crate) fn bytes_fit(bytes: &[u8])
    ensures { AreBytes bytes.now }
{}

/// A sequence number is one.
pub(crate) fn seq_fits(seq: Seq)
    ensures { seq.0 < 2 ^ 32 }
{}

/// The numbers of a header are in their ranges.
pub(crate) fn head_fits(head: Head)
    ensures { HeadFits head }
{}

/// So are those of one that may be wanting.
pub(crate) fn some_head_fits(head: Option<Head>)
    ensures { IfSome head HeadFits }
{}

/// And those of a frame's name.
pub(crate) fn frame_fits(frame: FrameId)
    ensures { FrameFits frame }
{}

/// The numbers of a segment are in their ranges.
pub(crate) fn seg_fits(seg: &Seg)
    ensures { SegFits seg.now }
{
    head_fits(seg.head);
    bytes_fit(seg.bytes.as_slice());
}

/// So are those of one whose payload stands elsewhere.
pub(crate) fn seen_seg_fits(seg: &SegView<'_>)
    ensures { SegFits (seen_seg seg.now) }
{
    head_fits(seg.head);
    bytes_fit(seg.bytes);
}

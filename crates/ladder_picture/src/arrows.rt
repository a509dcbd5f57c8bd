//! The text of arrows.

ghost use Rattle.std.specs.Prelude.{◌≡◌, ◌++◌, flat_map, map, OnOk};
ghost use Rattle.ladder_picture.specs.Elements.{counted, path_start, path_end};
ghost use Rattle.ladder_picture.specs.ArrowTexts as texts;
ghost use Rattle.ladder_picture.specs.Views.{seen_sent};

use crate::joins::{Arrival, CameFrame, SentFrame, across, arrows_of};
use crate::labels::{Origins, put_fate, put_label};
use crate::row::{Fate, Frame};
use crate::rungs::{Rung, Side};
use crate::text::{
    put, put_counted, put_path, put_path_end, put_path_start, put_text_end, put_text_start,
};
use std::alloc::{AllocError, Global};
use tas_num::Seq;

/// How a ladder is drawn: whether both ends are in the report, and the sequence numbers that those of each side are
/// told from.
#[derive(Clone, Copy)]
pub struct Look {
    pub both: bool,
    pub left: Seq,
    pub right: Seq,
}

/// From which numbers those of a frame are told that a side sends.
fn origins(look: &Look, sender: Side) -> Origins
    ensures { result ≡ texts.origins look.now sender }
{
    match sender {
        Side::Left => Origins {
            sender: look.left,
            receiver: look.right,
        },
        Side::Right => Origins {
            sender: look.right,
            receiver: look.left,
        },
    }
}

/// What an arrow is called that a side sends.
fn side_name(sender: Side) -> &'static [u8]
    ensures { result.now ≡ texts.side_name sender }
{
    match sender {
        Side::Left => b"left",
        Side::Right => b"right",
    }
}

/// Where a side's lifeline stands.
pub fn lifeline(side: Side) -> &'static [u8]
    ensures { result.now ≡ texts.lifeline side }
{
    match side {
        Side::Left => b"340",
        Side::Right => b"900",
    }
}

/// Where an arrow turns on its way, and where it ends before its head.
fn turn(sender: Side) -> &'static [u8]
    ensures { result.now ≡ texts.turn sender }
{
    match sender {
        Side::Left => b"H590L650 ",
        Side::Right => b"H650L590 ",
    }
}

fn way_end(sender: Side) -> &'static [u8]
    ensures { result.now ≡ texts.way_end sender }
{
    match sender {
        Side::Left => b"H892",
        Side::Right => b"H348",
    }
}

/// Appends the beginning of an arrow's line, at this height.
fn put_line_start(out: &mut Vec<u8>, sender: Side, y: u128) -> Result<(), AllocError>
    ensures { OnOk result (out.new.items ≡ out.old.items
        ++ path_start (texts.side_name sender) (texts.lifeline sender) y) }
{
    put_path_start(out, side_name(sender), lifeline(sender), y)
}

/// Appends where an arrow's line turns to another height.
fn put_turn(out: &mut Vec<u8>, sender: Side, to: u128) -> Result<(), AllocError>
    ensures { OnOk result (out.new.items ≡ out.old.items ++ counted (texts.turn sender) to) }
{
    put_counted(out, turn(sender), to)
}

/// Appends the rest of an arrow's line.
fn put_line_end(out: &mut Vec<u8>, sender: Side) -> Result<(), AllocError>
    ensures { OnOk result (out.new.items ≡ out.old.items ++ (texts.way_end sender ++ path_end)) }
{
    put_path_end(out, way_end(sender))
}

/// Appends the line of an arrow from a height to another.
fn put_line(out: &mut Vec<u8>, sender: Side, from: u128, to: u128) -> Result<(), AllocError>
    ensures { OnOk result (out.new.items ≡ out.old.items ++ texts.line_text sender from to) }
{
    put_line_start(out, sender, from)?;
    put_turn(out, sender, to)?;
    put_line_end(out, sender)
}

/// What a head is called that a side sent: filled where the connection had the frame.
fn head_name(sender: Side, fate: Option<Fate>) -> &'static [u8]
    ensures { result.now ≡ texts.head_name sender fate }
{
    match (sender, fate) {
        (Side::Left, None) => b"left-head",
        (Side::Right, None) => b"right-head",
        (Side::Left, Some(_)) => b"left-mark",
        (Side::Right, Some(_)) => b"right-mark",
    }
}

/// The form of a head.
fn head_form(sender: Side) -> &'static [u8]
    ensures { result.now ≡ texts.head_form sender }
{
    match sender {
        Side::Left => b"l-10 -4v8z",
        Side::Right => b"l10 -4v8z",
    }
}

/// Appends an arrow's head.
fn put_head(out: &mut Vec<u8>, sender: Side, y: u128, fate: Option<Fate>) -> Result<(), AllocError>
    ensures { OnOk result (out.new.items ≡ out.old.items ++ texts.head_text sender y fate) }
{
    put_path(
        out,
        head_name(sender, fate),
        lifeline(across(sender)),
        y,
        head_form(sender),
    )
}

/// What a label at a side is called, of a frame that a side sent.
fn label_name(sender: Side, at: Side) -> &'static [u8]
    ensures { result.now ≡ texts.label_name sender at }
{
    match (sender, at) {
        (Side::Left, Side::Left) => b"at-left from-left",
        (Side::Left, Side::Right) => b"at-right from-left",
        (Side::Right, Side::Left) => b"at-left from-right",
        (Side::Right, Side::Right) => b"at-right from-right",
    }
}

/// Where labels and marks of a side stand.
fn label_place(side: Side) -> &'static [u8]
    ensures { result.now ≡ texts.label_place side }
{
    match side {
        Side::Left => b"354",
        Side::Right => b"886",
    }
}

/// What a mark at a side is called.
fn mark_name(side: Side) -> &'static [u8]
    ensures { result.now ≡ texts.mark_name side }
{
    match side {
        Side::Left => b"mark-left",
        Side::Right => b"mark-right",
    }
}

/// Appends that a frame is a second copy, where it is.
fn put_again(out: &mut Vec<u8>, again: bool) -> Result<(), AllocError>
    ensures { OnOk result (out.new.items ≡ out.old.items ++ texts.again_text again) }
{
    if again {
        return put(out, b" second copy");
    }
    Ok(())
}

/// Appends the mark of what became of a frame where it came, and that it is a second copy.
fn put_mark(out: &mut Vec<u8>, sender: Side, arrival: &Arrival) -> Result<(), AllocError>
    ensures { OnOk result (out.new.items ≡ out.old.items ++ texts.mark_text sender arrival.now) }
{
    let side = across(sender);
    put_text_start(out, mark_name(side), label_place(side), arrival.y, b"-4")?;
    put_fate(out, arrival.fate)?;
    put_again(out, arrival.again)?;
    put_text_end(out)
}

/// Appends the way of a frame to where it came.
fn put_arrival(
    out: &mut Vec<u8>,
    sender: Side,
    y: u128,
    arrival: &Arrival,
) -> Result<(), AllocError>
    ensures { OnOk result (out.new.items ≡ out.old.items ++ texts.arrival_text sender y arrival.now) }
{
    put_line(out, sender, y, arrival.y)?;
    put_head(out, sender, arrival.y, arrival.fate)?;
    put_mark(out, sender, arrival)
}

/// Appends the label of a frame that a side sent, at a side.
fn put_side_label(
    out: &mut Vec<u8>,
    look: &Look,
    sender: Side,
    at: Side,
    y: u128,
    frame: &Frame,
) -> Result<(), AllocError>
    ensures { OnOk result (out.new.items ≡ out.old.items ++ texts.side_label look.now sender at y frame.now) }
{
    put_text_start(out, label_name(sender, at), label_place(at), y, b"-4")?;
    put_label(out, origins(look, sender), frame)?;
    put_text_end(out)
}

/// Appends the ways of a frame to where it came.
fn put_arrivals(
    out: &mut Vec<u8>,
    sender: Side,
    y: u128,
    ends: &[Arrival],
) -> Result<(), AllocError>
    ensures { OnOk result (out.new.items ≡ out.old.items ++ flat_map (texts.arrival_text sender y) ends.now) }
{
    for end in ends {
        put_arrival(out, sender, y, end)?;
    }
    Ok(())
}

/// Appends a frame that came nowhere: it is lost where both ends are in the report, and else its end is not known.
fn put_lost(out: &mut Vec<u8>, look: &Look, sender: Side, y: u128) -> Result<(), AllocError>
    ensures { OnOk result (out.new.items ≡ out.old.items ++ texts.lost_text look.now sender y) }
{
    if look.both {
        put_path(out, side_name(sender), lifeline(sender), y, b"H620")?;
        return put_path(out, b"cross", b"620", y, b"m-6 -6l12 12m0 -12l-12 12");
    }
    put_line(out, sender, y, y)?;
    put_head(out, sender, y, None)
}

/// Appends the ways of a frame, or that it came nowhere.
fn put_ways(
    out: &mut Vec<u8>,
    look: &Look,
    sender: Side,
    y: u128,
    ends: &[Arrival],
) -> Result<(), AllocError>
    ensures { OnOk result (out.new.items ≡ out.old.items ++ texts.ways_text look.now sender y ends.now) }
{
    if ends.is_empty() {
        return put_lost(out, look, sender, y);
    }
    put_arrivals(out, sender, y, ends)
}

/// Appends the arrow of a frame that was sent.
fn put_sent(out: &mut Vec<u8>, look: &Look, sent: &SentFrame) -> Result<(), AllocError>
    ensures { OnOk result (out.new.items ≡ out.old.items ++ texts.sent_text look.now (seen_sent sent.now)) }
{
    put_ways(out, look, sent.sender, sent.y, &sent.ends)?;
    put_side_label(out, look, sent.sender, sent.sender, sent.y, &sent.frame)
}

/// Appends the ring half way of a frame whose sender is in the report, and that comes from elsewhere.
fn put_ring(out: &mut Vec<u8>, look: &Look, y: u128) -> Result<(), AllocError>
    ensures { OnOk result (out.new.items ≡ out.old.items ++ texts.ring_text look.now y) }
{
    if look.both {
        return put_path(out, b"ring", b"616", y, b"a4 4 0 1 0 8 0a4 4 0 1 0 -8 0z");
    }
    Ok(())
}

/// Where the line of a frame begins that was not sent on a rung: half way, or at the other lifeline.
fn origin(look: &Look, sender: Side) -> &'static [u8]
    ensures { result.now ≡ texts.origin look.now sender }
{
    if look.both {
        return b"620";
    }
    lifeline(sender)
}

/// Appends the line of a frame that came from nowhere that is shown.
fn put_came_line(out: &mut Vec<u8>, look: &Look, sender: Side, y: u128) -> Result<(), AllocError>
    ensures { OnOk result (out.new.items ≡ out.old.items ++ texts.came_line look.now sender y) }
{
    put_path(
        out,
        side_name(sender),
        origin(look, sender),
        y,
        way_end(sender),
    )
}

/// Appends its label, where it came.
fn put_came_label(out: &mut Vec<u8>, look: &Look, came: &CameFrame) -> Result<(), AllocError>
    ensures { OnOk result (out.new.items ≡ out.old.items ++ texts.came_label look.now came.now) }
{
    let at = across(came.sender);
    put_side_label(out, look, came.sender, at, came.y, &came.frame)
}

/// Appends the arrow of a frame that came from nowhere that is shown.
fn put_came(out: &mut Vec<u8>, look: &Look, came: &CameFrame) -> Result<(), AllocError>
    ensures { OnOk result (out.new.items ≡ out.old.items ++ texts.came_text look.now came.now) }
{
    put_came_line(out, look, came.sender, came.y)?;
    put_ring(out, look, came.y)?;
    put_head(out, came.sender, came.y, None)?;
    put_came_label(out, look, came)
}

/// Appends the arrows of frames that were sent.
fn put_all_sent(out: &mut Vec<u8>, look: &Look, sent: &[SentFrame]) -> Result<(), AllocError>
    ensures { OnOk result (out.new.items ≡ out.old.items
        ++ flat_map (texts.sent_text look.now) (map seen_sent sent.now)) }
{
    for arrow in sent {
        put_sent(out, look, arrow)?;
    }
    Ok(())
}

/// Appends the arrows of frames that came from nowhere that is shown.
fn put_all_came(out: &mut Vec<u8>, look: &Look, came: &[CameFrame]) -> Result<(), AllocError>
    ensures { OnOk result (out.new.items ≡ out.old.items ++ flat_map (texts.came_text look.now) came.now) }
{
    for arrow in came {
        put_came(out, look, arrow)?;
    }
    Ok(())
}

/// Appends the arrows of a ladder. The error is want of memory.
pub fn put_arrows(
    alloc: Global,
    out: &mut Vec<u8>,
    look: &Look,
    rungs: &[Rung],
) -> Result<(), AllocError>
    ensures { OnOk result (out.new.items ≡ out.old.items ++ texts.arrows_text look.now rungs.now) }
{
    let arrows = arrows_of(alloc, rungs)?;
    put_all_sent(out, look, &arrows.sent)?;
    put_all_came(out, look, &arrows.came)
}

//! The text of a whole picture.

ghost use Rattle.std.specs.Prelude.{◌≡◌, ◌++◌, flat_map, OnOk};
ghost use Rattle.ladder_picture.specs.Drawing as rules;
ghost use Rattle.ladder_picture.specs.Views.{seen_end};

use crate::arrows::{Look, lifeline, put_arrows};
use crate::labels::{phase_name, put_note, put_socket};
use crate::row::{Note, Row};
use crate::rungs::{Rung, Side};
use crate::text::{
    put, put_counted, put_escaped, put_number, put_path, put_path_end, put_path_start,
    put_text_end, put_text_start,
};
use std::alloc::{AllocError, Global};
use tas_model::Phase;

/// One end as its lifeline's head tells it: the host's name, where it is in the report, and its address and port.
#[derive(Clone, Copy)]
pub struct EndName<'a> {
    pub name: &'a [u8],
    pub addr: u32,
    pub port: u16,
}

/// How far down a ladder ends.
fn bottom(rungs: &[Rung]) -> u128
    ensures { result ≡ rules.bottom rungs.now }
{
    let mut y = 104;
    for rung in rungs {
        y = rung.y;
    }
    y
}

/// So much farther down.
fn down(y: u128, more: u128) -> u128
    ensures { result ≡ rules.down y more }
{
    y.saturating_add(more)
}

/// Appends how the parts of a picture look.
fn put_style(out: &mut Vec<u8>) -> Result<(), AllocError>
    ensures { OnOk result (out.new.items ≡ out.old.items ++ rules.style) }
{
    put(
        out,
        b"<style>text{font-family:monospace;font-size:12px;fill:#111}",
    )?;
    put(
        out,
        b".name{font-size:16px;font-weight:bold;text-anchor:middle}.socket{text-anchor:middle}",
    )?;
    put(
        out,
        b".at-right,.mark-right,.state-left,.note-left{text-anchor:end}",
    )?;
    put(
        out,
        b".state-left,.state-right{font-weight:bold;fill:#6a1b7a}.mark-left,.mark-right{fill:#a40000}",
    )?;
    put(
        out,
        b".tick,.key{fill:#555}.from-left{fill:#0b3d91}.from-right{fill:#14591d}",
    )?;
    put(
        out,
        b"path{fill:none;stroke-width:1.5}.line{stroke:#888}.left,.left-mark{stroke:#0b3d91}",
    )?;
    put(
        out,
        b".right,.right-mark{stroke:#14591d}.left-head{fill:#0b3d91}.right-head{fill:#14591d}",
    )?;
    put(
        out,
        b".left-mark,.right-mark{fill:#fff}.cross{stroke:#a40000;stroke-width:2.5}",
    )?;
    put(
        out,
        b".ring{fill:#fff;stroke:#a40000}.fold{stroke:#fff;stroke-width:4;stroke-dasharray:3 3}</style>\n",
    )
}

/// Appends the beginning of the document: its size, how its parts look, and the ground, on which all is dark.
fn put_begin(out: &mut Vec<u8>, height: u128) -> Result<(), AllocError>
    ensures { OnOk result (out.new.items ≡ out.old.items ++ rules.begin_text height) }
{
    put_counted(
        out,
        b"<svg xmlns=\"http://www.w3.org/2000/svg\" version=\"1.1\" width=\"1200\" height=\"",
        height,
    )?;
    put_counted(out, b"\" viewBox=\"0 0 1200 ", height)?;
    put(out, b"\">\n")?;
    put_style(out)?;
    put(
        out,
        b"<rect width=\"100%\" height=\"100%\" fill=\"#fff\"/>\n",
    )
}

/// Appends a lifeline, down to its end.
fn put_lifeline(out: &mut Vec<u8>, side: Side, end: u128) -> Result<(), AllocError>
    ensures { OnOk result (out.new.items ≡ out.old.items ++ rules.line_text side end) }
{
    put_path_start(out, b"line", lifeline(side), 68)?;
    put_counted(out, b"V", end)?;
    put_path_end(out, b"")
}

/// Appends a host's name above a lifeline.
fn put_name(out: &mut Vec<u8>, side: Side, name: &[u8]) -> Result<(), AllocError>
    ensures { OnOk result (out.new.items ≡ out.old.items ++ rules.name_text side name.now) }
{
    put_text_start(out, b"name", lifeline(side), 34, b"0")?;
    put_escaped(out, name)?;
    put_text_end(out)
}

/// Appends an address and a port above a lifeline.
fn put_address(out: &mut Vec<u8>, side: Side, addr: u32, port: u16) -> Result<(), AllocError>
    ensures { OnOk result (out.new.items ≡ out.old.items ++ rules.address_text side addr port) }
{
    put_text_start(out, b"socket", lifeline(side), 54, b"0")?;
    put_socket(out, addr, port)?;
    put_text_end(out)
}

/// Appends the head of a lifeline.
fn put_end_name(out: &mut Vec<u8>, side: Side, end: &EndName<'_>) -> Result<(), AllocError>
    ensures { OnOk result (out.new.items ≡ out.old.items ++ rules.end_text side (seen_end end.now)) }
{
    put_name(out, side, end.name)?;
    put_address(out, side, end.addr, end.port)
}

/// Appends the head of the column of ticks.
fn put_tick_head(out: &mut Vec<u8>) -> Result<(), AllocError>
    ensures { OnOk result (out.new.items ≡ out.old.items ++ rules.tick_head) }
{
    put_text_start(out, b"tick", b"14", 54, b"0")?;
    put(out, b"tick")?;
    put_text_end(out)
}

/// Appends the tick of a rung, where it is the first of it.
fn put_tick(out: &mut Vec<u8>, rung: &Rung) -> Result<(), AllocError>
    ensures { OnOk result (out.new.items ≡ out.old.items ++ rules.tick_text rung.now) }
{
    if !rung.opens {
        return Ok(());
    }
    put_text_start(out, b"tick", b"14", rung.y, b"4")?;
    put_number(out, u128::from(rung.tick))?;
    put_text_end(out)
}

/// Appends how many ticks are folded.
fn put_quiet(out: &mut Vec<u8>, ticks: u32) -> Result<(), AllocError>
    ensures { OnOk result (out.new.items ≡ out.old.items ++ rules.quiet_text ticks) }
{
    put_number(out, u128::from(ticks))?;
    if ticks == 1 {
        return put(out, b" quiet tick");
    }
    put(out, b" quiet ticks")
}

/// Appends how many ticks are folded above this height.
fn put_fold_text(out: &mut Vec<u8>, y: u128, ticks: u32) -> Result<(), AllocError>
    ensures { OnOk result (out.new.items ≡ out.old.items ++ rules.fold_label y ticks) }
{
    put_text_start(out, b"tick", b"14", y, b"-24")?;
    put_quiet(out, ticks)?;
    put_text_end(out)
}

/// Appends the fold of quiet ticks above a rung, where there are some.
fn put_fold(out: &mut Vec<u8>, rung: &Rung) -> Result<(), AllocError>
    ensures { OnOk result (out.new.items ≡ out.old.items ++ rules.fold_text rung.now) }
{
    if rung.quiet == 0 {
        return Ok(());
    }
    put_gap(out, Side::Left, rung.y)?;
    put_gap(out, Side::Right, rung.y)?;
    put_fold_text(out, rung.y, rung.quiet)
}

/// Appends the gap in a lifeline above this height.
fn put_gap(out: &mut Vec<u8>, side: Side, y: u128) -> Result<(), AllocError>
    ensures { OnOk result (out.new.items ≡ out.old.items ++ rules.gap side y) }
{
    put_path(out, b"fold", lifeline(side), y, b"m0 -38v20")
}

/// What a note at a side is called, and where it stands.
fn note_name(side: Side) -> &'static [u8]
    ensures { result.now ≡ rules.note_name side }
{
    match side {
        Side::Left => b"note-left",
        Side::Right => b"note-right",
    }
}

fn note_place(side: Side) -> &'static [u8]
    ensures { result.now ≡ rules.note_place side }
{
    match side {
        Side::Left => b"240",
        Side::Right => b"1000",
    }
}

/// Appends a note at the outer side of a lifeline, where there is one.
fn put_side_note(out: &mut Vec<u8>, side: Side, y: u128, note: Note) -> Result<(), AllocError>
    ensures { OnOk result (out.new.items ≡ out.old.items ++ rules.side_note side y note) }
{
    if let Note::Nothing = note {
        return Ok(());
    }
    put_text_start(out, note_name(side), note_place(side), y, b"4")?;
    put_note(out, note)?;
    put_text_end(out)
}

/// What a state at a side is called, and where it stands.
fn state_name(side: Side) -> &'static [u8]
    ensures { result.now ≡ rules.state_name side }
{
    match side {
        Side::Left => b"state-left",
        Side::Right => b"state-right",
    }
}

fn state_place(side: Side) -> &'static [u8]
    ensures { result.now ≡ rules.state_place side }
{
    match side {
        Side::Left => b"332",
        Side::Right => b"908",
    }
}

/// Appends a new state beside a lifeline, where there is one.
fn put_state(out: &mut Vec<u8>, side: Side, y: u128, state: Option<Phase>) -> Result<(), AllocError>
    ensures { OnOk result (out.new.items ≡ out.old.items ++ rules.side_state side y state) }
{
    let Some(phase) = state else {
        return Ok(());
    };
    put_text_start(out, state_name(side), state_place(side), y, b"4")?;
    put(out, phase_name(phase))?;
    put_text_end(out)
}

/// Appends what stands beside a lifeline in a row.
fn put_row(out: &mut Vec<u8>, side: Side, y: u128, row: Option<Row>) -> Result<(), AllocError>
    ensures { OnOk result (out.new.items ≡ out.old.items ++ rules.row_text side y row) }
{
    let Some(row) = row else {
        return Ok(());
    };
    put_side_note(out, side, y, row.note)?;
    put_state(out, side, y, row.state)
}

/// Appends what stands beside the lifelines on a rung.
fn put_rung(out: &mut Vec<u8>, rung: &Rung) -> Result<(), AllocError>
    ensures { OnOk result (out.new.items ≡ out.old.items ++ rules.rung_text rung.now) }
{
    put_fold(out, rung)?;
    put_tick(out, rung)?;
    put_row(out, Side::Left, rung.y, rung.left)?;
    put_row(out, Side::Right, rung.y, rung.right)
}

/// Appends what stands beside the lifelines.
fn put_rungs(out: &mut Vec<u8>, rungs: &[Rung]) -> Result<(), AllocError>
    ensures { OnOk result (out.new.items ≡ out.old.items ++ flat_map rules.rung_text rungs.now) }
{
    for rung in rungs {
        put_rung(out, rung)?;
    }
    Ok(())
}

/// What the labels tell.
fn key_words(absolute: bool) -> &'static [u8]
    ensures { result.now ≡ rules.key_words absolute }
{
    if absolute {
        return b"flags, number, ack, length, window";
    }
    b"flags, number, ack, length, window; the numbers of each side count from its first"
}

/// Appends them.
fn put_key_words(out: &mut Vec<u8>, absolute: bool) -> Result<(), AllocError>
    ensures { OnOk result (out.new.items ≡ out.old.items ++ rules.key_words absolute) }
{
    put(out, key_words(absolute))
}

/// Appends what the labels tell, so far down, and the end of the document.
fn put_close(out: &mut Vec<u8>, absolute: bool, y: u128) -> Result<(), AllocError>
    ensures { OnOk result (out.new.items ≡ out.old.items ++ rules.close_text absolute y) }
{
    put_text_start(out, b"key", b"354", y, b"0")?;
    put_key_words(out, absolute)?;
    put_text_end(out)?;
    put(out, b"</svg>\n")
}

/// Appends what stands between the beginning and the end; the lifelines reach so far down.
fn put_parts(
    alloc: Global,
    out: &mut Vec<u8>,
    look: &Look,
    left: &EndName<'_>,
    right: &EndName<'_>,
    rungs: &[Rung],
    end: u128,
) -> Result<(), AllocError>
    ensures { OnOk result (out.new.items ≡ out.old.items
        ++ rules.parts_text look.now (seen_end left.now) (seen_end right.now) rungs.now end) }
{
    put_lifeline(out, Side::Left, end)?;
    put_lifeline(out, Side::Right, end)?;
    put_tick_head(out)?;
    put_end_name(out, Side::Left, left)?;
    put_end_name(out, Side::Right, right)?;
    put_rungs(out, rungs)?;
    put_arrows(alloc, out, look, rungs)
}

/// Appends the picture of a ladder. The error is want of memory.
pub fn put_drawing(
    alloc: Global,
    out: &mut Vec<u8>,
    look: &Look,
    absolute: bool,
    left: &EndName<'_>,
    right: &EndName<'_>,
    rungs: &[Rung],
) -> Result<(), AllocError>
    ensures { OnOk result (out.new.items ≡ out.old.items
        ++ rules.drawing look.now absolute (seen_end left.now) (seen_end right.now) rungs.now) }
{
    let end = bottom(rungs);
    put_begin(out, down(end, 64))?;
    put_parts(alloc, out, look, left, right, rungs, down(end, 20))?;
    put_close(out, absolute, down(end, 48))?;
    Ok(())
}

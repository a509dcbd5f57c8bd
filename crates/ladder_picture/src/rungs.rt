//! Which rows stand side by side, and how far down.

ghost use Rattle.std.specs.Prelude.{◌≡◌, ◌<◌, ◌≤◌, ◌+◌, ◌^◌, length, position, IfOk, IfSome};
ghost use Rattle.ladder_picture.specs.Rungs as rules;
ghost use Rattle.ladder_picture.specs.Arrows.{framed_on, row_on};

use crate::row::{Framed, Row};
use std::alloc::{AllocError, Global};

/// An end of the connection: the flow that is drawn stands at the left.
#[derive(Clone, Copy)]
pub enum Side {
    Left,
    Right,
}

/// A rung of the ladder: at most one row of each side, both of one tick; how far down it stands, in pixels, and how
/// many quiet ticks are folded above it. `opens` is true where it is the first rung of its tick.
#[derive(Clone, Copy)]
pub struct Rung {
    pub tick: u32,
    pub y: u128,
    pub quiet: u32,
    pub opens: bool,
    pub left: Option<Row>,
    pub right: Option<Row>,
}

/// The earlier tick of the first rows of both sides, or of the one side that has rows.
fn first_tick(left: &[Row], right: &[Row]) -> u32
    ensures { result ≡ rules.first_tick left.now right.now }
{
    match (left, right) {
        ([one, ..], [other, ..]) => one.tick.min(other.tick),
        ([one, ..], []) => one.tick,
        ([], [other, ..]) => other.tick,
        ([], []) => 0,
    }
}

/// The first row, where it is of this tick.
fn row_at(tick: u32, rows: &[Row]) -> Option<Row>
    ensures { result ≡ rules.row_at tick rows.now }
{
    match rows {
        [row, ..] if row.tick == tick => Some(*row),
        _ => None,
    }
}

/// What is left behind it.
fn rows_behind(tick: u32, rows: &[Row]) -> &[Row]
    ensures { result.now ≡ rules.rows_behind tick rows.now }
{
    match rows {
        [row, rest @ ..] if row.tick == tick => rest,
        _ => rows,
    }
}

/// How far a rung stands below the one above it, which is so many ticks earlier.
fn distance(later: u32) -> u128
    ensures distance { result ≡ rules.distance later }
    ensures short { result ≤ 54 }
{
    match later {
        0 => 20,
        1 => 30,
        _ => 54,
    }
}

/// The rung of a tick below another one, or the first of all.
fn below(above: Option<Rung>, tick: u32, left: Option<Row>, right: Option<Row>) -> Rung
    requires { IfSome above (λ last. last.y + 54 < 2 ^ 128) }
    ensures { result ≡ rules.below above tick left right }
{
    match above {
        None => Rung {
            tick,
            y: 104,
            quiet: 0,
            opens: true,
            left,
            right,
        },
        Some(last) => {
            let later = tick.saturating_sub(last.tick);
            Rung {
                tick,
                y: last.y + distance(later),
                quiet: later.saturating_sub(1),
                opens: later > 0,
                left,
                right,
            }
        }
    }
}

/// Whether neither side has rows left.
fn are_over(left: &[Row], right: &[Row]) -> bool
    ensures { result ≡ rules.are_over left.now right.now }
{
    match (left, right) {
        ([], []) => true,
        _ => false,
    }
}

/// The rungs of two lists of rows: in each tick the first rows of both sides on one rung, and so on. The error is want
/// of memory.
pub fn rungs_of(alloc: Global, left: &[Row], right: &[Row]) -> Result<Vec<Rung>, AllocError>
    ensures { IfOk result (λ rungs. rungs.items ≡ rules.rungs_of left.now right.now) }
{
    let mut rungs: Vec<Rung> = Vec::new(alloc);
    let mut ours = left;
    let mut theirs = right;
    let mut last: Option<Rung> = None;
    'rungs: while !are_over(ours, theirs) {
        let tick = first_tick(ours, theirs);
        let rung = below(last, tick, row_at(tick, ours), row_at(tick, theirs));
        rungs.push(rung)?;
        last = Some(rung);
        ours = rows_behind(tick, ours);
        theirs = rows_behind(tick, theirs);
    }
    Ok(rungs)
}

/// Whether a row is of a later tick.
fn is_later(row: &Row, tick: u32) -> bool
    ensures { result ≡ rules.is_later tick row.now }
{
    row.tick > tick
}

/// The place of the first row of a later tick.
fn first_later(rows: &[Row], tick: u32) -> Option<usize>
    ensures place { result ≡ position (rules.is_later tick) rows.now }
    ensures within { IfSome result (λ at. at < length rows.now) }
{
    rows.iter().position(|row| is_later(row, tick))
}

/// Where a row of a log stands among rows: behind those of its tick.
fn place_in(rows: &[Row], tick: u32) -> usize
    ensures place { result ≡ rules.place_in rows.now tick }
    ensures within { result ≤ length rows.now }
{
    match first_later(rows, tick) {
        Some(at) => at,
        None => rows.len(),
    }
}

/// Whether this is the number of the flow.
fn is_flow(flow: u32, own: Option<u32>) -> bool
    ensures { result ≡ rules.is_flow flow own }
{
    match own {
        Some(own) => flow == own,
        None => false,
    }
}

/// Whether a row tells of a frame of this host's flow.
fn tells(row: &Row, host: usize, flow: Option<u32>) -> bool
    ensures { result ≡ rules.tells host flow row.now }
{
    match row.framed {
        Framed::Met { id, .. } => id.host as usize == host && is_flow(id.flow, flow),
        Framed::Nothing | Framed::Sent(_) | Framed::Came(_) => false,
    }
}

/// Rows with those of a log that tell of frames of this host's flow, each behind the rows of its tick. The error is
/// want of memory.
pub fn with_log(
    alloc: Global,
    rows: &[Row],
    log: &[Row],
    host: usize,
    flow: Option<u32>,
) -> Result<Vec<Row>, AllocError>
    ensures { IfOk result (λ merged. merged.items ≡ rules.with_log rows.now log.now host flow) }
{
    let mut merged: Vec<Row> = Vec::new(alloc);
    let mut rest = rows;
    for row in log {
        if tells(row, host, flow) {
            let (first, behind) = rest.split_at(place_in(rest, row.tick));
            merged.extend_from_slice(first)?;
            merged.push(*row)?;
            rest = behind;
        }
    }
    merged.extend_from_slice(rest)?;
    Ok(merged)
}

/// What passes in a row, where there is one.
fn framed_in(row: Option<Row>) -> Framed
    ensures { result ≡ rules.framed_in row }
{
    match row {
        Some(row) => row.framed,
        None => Framed::Nothing,
    }
}

impl Rung {
    /// The row of a side.
    pub fn row(&self, side: Side) -> Option<Row>
        ensures { result ≡ row_on side self.now }
    {
        match side {
            Side::Left => self.left,
            Side::Right => self.right,
        }
    }

    /// What passes at a side.
    pub fn framed(&self, side: Side) -> Framed
        ensures { result ≡ framed_on side self.now }
    {
        framed_in(self.row(side))
    }
}

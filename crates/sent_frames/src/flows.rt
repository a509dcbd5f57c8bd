//! The frames that flows sent in a tick.

ghost use Rattle.std.specs.Prelude.{◌≡◌, ℕ, ◌≤◌, ◌<◌, ◌+◌, ◌^◌, ◌++◌, ◌∷◌, [], true, false, List, length, filter};
ghost use Rattle.std.specs.Prelude.{flat_map};
ghost use Rattle.std.specs.Prelude.{take, drop, nat_lt, IfOk, OnOk};
ghost use Rattle.tas_model.specs.declared.entry.Entry.{Entry};
ghost use Rattle.tas_model.specs.LegalHistory.{last_tick, Legal};
ghost use Rattle.tas_model.specs.Outputs as outputs;
ghost use Rattle.flow_state.specs.Views.{seen_stretch, IsFit};
ghost use Rattle.run_texts.specs.Frames.{AreAllShort};
ghost use Rattle.scenario_runs.specs.Worlds.{World, host_at, frames_of_entries};
ghost use Rattle.sent_frames.specs.Sending.{addresses_of, of_tick, AreUpTo, entry_frames, sent_by, sent_before};

use crate::frames::{Origin, Sender, push_segment};
use flow_state::{EntryAt, FlowRecord, StretchView, Stretches};
use link_script::SentList;
use run_texts::segment_in;
use std::alloc::{AllocError, Global};

/// Collects the frames that a flow sent in a tick: it is the flow with opening number `flow` of a host, and sent
/// `number` frames before. The answer is how many it sent in all. The error is want of memory.
///
/// It looks at the newest entries alone, and at none where it sent nothing.
#[inline(always)]
pub fn collect_flow(
    alloc: Global,
    sender: &Sender<'_>,
    flow: u32,
    number: u64,
    tick: u32,
    history: &FlowRecord,
    sent: &mut SentList,
) -> Result<u64, AllocError>
    requires hosts { length sender.now.addresses.now < 2 ^ 32 }
    requires number { number ≡ sent_before tick history.now.entries }
    requires last { AreUpTo tick sent.old }
    ensures frames { (world : World) → sender.now.addresses.now ≡ addresses_of world → OnOk result (sent.new
        ≡ sent.old ++ of_tick tick (frames_of_entries sender.now.host flow 0 (host_at world history.now.tuple.raddr)
        history.now.tuple history.now.entries)) }
    ensures number { IfOk result (λ n. n ≡ sent_by history.now.entries) }
    ensures last { OnOk result (AreUpTo tick sent.new) }
{
    // Most flows sent none in most ticks, as their count tells.
    if history.sent() == number {
        return Ok(number);
    }
    let tuple = history.tuple();
    let origin = Origin {
        host: sender.host,
        flow,
        to: sender.host_at(tuple.raddr),
        tuple,
    };
    collect_entries(alloc, &origin, number, tick, history, sent)
}

/// Collects the frames that a flow sent in a tick, where it sent `number` frames before.
fn collect_entries(
    alloc: Global,
    origin: &Origin,
    number: u64,
    tick: u32,
    history: &FlowRecord,
    sent: &mut SentList,
) -> Result<u64, AllocError>
    requires number { number ≡ sent_before tick history.now.entries }
    requires last { AreUpTo tick sent.old }
    ensures frames { OnOk result (sent.new
        ≡ sent.old ++ of_tick tick (entry_frames origin.now 0 history.now.entries)) }
    ensures number { IfOk result (λ n. n ≡ sent_by history.now.entries) }
    ensures last { OnOk result (AreUpTo tick sent.new) }
{
    // Its history is legal, with parameters in their ranges.
    let _parts = history.parts();
    let _entries = history.entries();
    let stretches = history.stretches();
    let mut number = number;
    for i in first_since(&stretches, tick)..stretches.len() {
        number = collect_stretch(alloc, origin, number, tick, stretches.get(i), sent)?;
    }
    Ok(number)
}

/// The place of the first stretch from which on none ended before the tick.
fn first_since(stretches: &Stretches<'_>, tick: u32) -> usize
    ensures bound { result ≤ length stretches.now }
    ensures earlier { 0 < result → last_tick 0 (flat_map (λ (xs : List Entry). xs) (take result stretches.now)) < tick }
    ensures later { outputs.sent (filter (λ (x : Entry). nat_lt x.tick tick)
        (flat_map (λ (xs : List Entry). xs) (drop result stretches.now))) ≡ [] }
{
    let mut first = stretches.len();
    while first > 0 {
        if ended_before(stretches.get(first - 1), tick) {
            return first;
        }
        first -= 1;
    }
    first
}

/// Whether all entries of a stretch are of earlier ticks.
fn ended_before(stretch: StretchView<'_>, tick: u32) -> bool
    requires { IsFit stretch }
    ensures earlier { result ≡ true → (n : ℕ) → last_tick n (seen_stretch stretch.entry) < tick }
    ensures later { result ≡ false
        → outputs.sent (filter (λ (x : Entry). nat_lt x.tick tick) (seen_stretch stretch.entry)) ≡ [] }
{
    match stretch {
        StretchView::One(entry) => entry.tick() < tick,
        StretchView::Quiet(run) => run.tick + run.more < tick,
        StretchView::Paced(runs) => runs.tick <= tick,
    }
}

/// Collects the frames of a tick among those of a stretch, the first of which has this number. The answer is the number
/// of the next one. Quiet ticks and Controls have none.
fn collect_stretch(
    alloc: Global,
    origin: &Origin,
    number: u64,
    tick: u32,
    stretch: StretchView<'_>,
    sent: &mut SentList,
) -> Result<u64, AllocError>
    requires few { number + length (seen_stretch stretch) < 2 ^ 64 }
    requires room { AreAllShort (outputs.sent (seen_stretch stretch)) }
    requires last { AreUpTo tick sent.old }
    ensures frames { OnOk result (sent.new
        ≡ sent.old ++ of_tick tick (entry_frames origin.now number (seen_stretch stretch.entry))) }
    ensures number { IfOk result (λ n. n ≡ number + sent_by (seen_stretch stretch.entry)) }
    ensures last { OnOk result (AreUpTo tick sent.new) }
{
    match stretch {
        StretchView::One(entry) => collect_entry(alloc, origin, number, tick, entry, sent),
        StretchView::Quiet(_) => Ok(number),
        StretchView::Paced(_) => Ok(number),
    }
}

/// Collects the frame of an entry, where it has one and is of the tick. The answer is the number of the next frame.
fn collect_entry(
    alloc: Global,
    origin: &Origin,
    number: u64,
    tick: u32,
    entry: EntryAt<'_>,
    sent: &mut SentList,
) -> Result<u64, AllocError>
    requires few { number + 1 < 2 ^ 64 }
    requires room { AreAllShort (outputs.sent (entry ∷ [])) }
    requires last { AreUpTo tick sent.old }
    ensures frames { OnOk result (sent.new
        ≡ sent.old ++ of_tick tick (entry_frames origin.now number (entry.entry ∷ []))) }
    ensures number { IfOk result (λ n. n ≡ number + sent_by (entry.entry ∷ [])) }
    ensures last { OnOk result (AreUpTo tick sent.new) }
{
    let Some(seg) = segment_in(entry.reply()) else {
        return Ok(number);
    };
    if entry.tick() == tick {
        push_segment(alloc, origin, number, tick, seg, sent)?;
    }
    Ok(number + 1)
}

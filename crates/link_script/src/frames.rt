//! Frames that were sent, in the order of their ticks.

ghost use Rattle.std.specs.List.Sorted.{IsPartitionPoint, IsNonDecreasingBy};
ghost use Rattle.std.specs.Prelude.{◌≡◌, ◌<◌, ◌≤◌, nat_le, nat_lt, true, false, ◌++◌, ◌∷◌, [], length, slice_get};
ghost use Rattle.std.specs.Prelude.{filter, ◌==◌, Some, OnOk, OnErr};
ghost use Rattle.link_script.specs.Emitted.{behind_earlier};
ghost use Rattle.link_script.specs.declared.frames.Sent.{Sent};

use std::alloc::{AllocError, Global};
use std::marker::Model;
use tas_model::{Bytes, FrameId};

/// A frame that was sent: its name, the tick of its emission, the number of the host that it goes to, and its packet.
#[derive(Drop)]
pub struct Sent {
    pub id: FrameId,
    pub tick: u32,
    pub to: u32,
    pub packet: Bytes,
}

/// Frames that were sent, seen as their list, by the ticks of their emission.
#[derive(Drop)]
pub struct SentList {
    frames: Vec<Sent>,
}

impl Model for SentList {
    ghost use Rattle.std.specs.Prelude.{List};
    ghost use Rattle.std.specs.List.Sorted.{IsNonDecreasingBy};
    ghost use Rattle.link_script.specs.declared.frames.Sent.{Sent};

    ghost Value = { List Sent };

    ghost view = { λ s. s.frames.items };

    ghost invariant = { λ s. IsNonDecreasingBy (λ (f : Sent). f.tick) s.frames.items };
}

impl SentList {
    /// A list without frames. It takes no memory.
    pub fn new(alloc: Global) -> SentList
        ensures { result ≡ [] }
    {
        SentList {
            frames: Vec::new(alloc),
        }
    }

    /// Puts a frame behind all that were sent no later, which are all of them where ticks don't fall. The error is want
    /// of memory, and leaves the list as it was.
    pub fn push(&mut self, s: Sent) -> Result<(), AllocError>
        ensures ok { OnOk result (self.new ≡ behind_earlier self.old s) }
        ensures err { OnErr result (self.new ≡ self.old) }
    {
        let at = count_until(&self.frames, s.tick);
        self.frames.insert(at, s)?;
        Ok(())
    }

    /// How many frames there are.
    pub fn len(&self) -> usize
        ensures { result ≡ length self.now }
    {
        self.frames.len()
    }

    /// The frame at a place, counted from 0.
    pub fn get(&self, i: usize) -> &Sent
        requires { i < length self.now }
        ensures { slice_get self.now i ≡ Some result.now }
    {
        &self.frames[i]
    }

    /// Lets the frames go that were sent before a tick.
    pub fn forget_before(&mut self, tick: u32)
        ensures { self.new ≡ filter (λ (f : Sent). nat_le tick f.tick) self.old }
    {
        let count = count_before(&self.frames, tick);
        self.frames.drain(..count);
    }

    /// The frames that were sent in a tick.
    pub fn sent_in(&self, tick: u32) -> &[Sent]
        ensures { result.now ≡ filter (λ (f : Sent). f.tick == tick) self.now }
    {
        of_tick(self.frames.as_slice(), tick)
    }
}

/// The frames of a tick, among frames by their ticks.
fn of_tick(frames: &[Sent], tick: u32) -> &[Sent]
    requires { IsNonDecreasingBy (λ (f : Sent). f.tick) frames.now }
    ensures { result.now ≡ filter (λ (f : Sent). f.tick == tick) frames.now }
{
    let rest = &frames[count_before(frames, tick)..];
    &rest[..count_until(rest, tick)]
}

/// How many frames were sent before a tick.
fn count_before(frames: &[Sent], tick: u32) -> usize
    requires { IsNonDecreasingBy (λ (f : Sent). f.tick) frames.now }
    ensures bound { result ≤ length frames.now }
    ensures parts { IsPartitionPoint (λ (f : Sent). nat_lt f.tick tick ≡ true)
        (λ (f : Sent). nat_lt f.tick tick ≡ false) frames.now result }
{
    frames.partition_point(|frame| frame.tick < tick)
}

/// How many frames were sent in a tick or before it.
fn count_until(frames: &[Sent], tick: u32) -> usize
    requires { IsNonDecreasingBy (λ (f : Sent). f.tick) frames.now }
    ensures bound { result ≤ length frames.now }
    ensures parts { IsPartitionPoint (λ (f : Sent). nat_le f.tick tick ≡ true)
        (λ (f : Sent). nat_le f.tick tick ≡ false) frames.now result }
{
    frames.partition_point(|frame| frame.tick <= tick)
}

/// A frame that comes: the one that was sent, or another that the link made of it.
#[derive(Drop)]
pub struct DueFrame<'a> {
    sent: &'a Sent,
    made: Option<Sent>,
}

impl<'a> Model for DueFrame<'a> {
    ghost use Rattle.link_script.specs.declared.frames.Sent.{Sent};
    ghost use Rattle.link_script.specs.Coming.{frame_in};

    ghost Value = { Sent };

    ghost view = { λ c. frame_in c.sent.now c.made };
}

impl<'a> DueFrame<'a> {
    /// It comes as it was sent.
    pub fn as_sent(sent: &'a Sent) -> DueFrame<'a>
        ensures { result ≡ sent.now }
    {
        DueFrame { sent, made: None }
    }

    /// This one comes in its place.
    pub fn made_of(sent: &'a Sent, made: Sent) -> DueFrame<'a>
        ensures { result ≡ made }
    {
        DueFrame {
            sent,
            made: Some(made),
        }
    }

    /// The frame as it comes.
    pub fn frame(&self) -> &Sent
        ensures { result.now ≡ self.now }
    {
        match &self.made {
            Some(made) => made,
            None => self.sent,
        }
    }
}

/// Frames that are due, seen as their list. Those that come as they were sent are not copied.
#[derive(Drop)]
pub struct DueList<'a> {
    frames: Vec<DueFrame<'a>>,
}

impl<'a> Model for DueList<'a> {
    ghost use Rattle.std.specs.Prelude.{List};
    ghost use Rattle.link_script.specs.declared.frames.Sent.{Sent};

    ghost Value = { List Sent };

    ghost view = { λ s. s.frames.items };
}

impl<'a> DueList<'a> {
    /// A list without frames. It takes no memory.
    pub fn new(alloc: Global) -> DueList<'a>
        ensures { result ≡ [] }
    {
        DueList {
            frames: Vec::new(alloc),
        }
    }

    /// Frames that were collected elsewhere.
    pub fn of(frames: Vec<DueFrame<'a>>) -> DueList<'a>
        ensures { result ≡ frames.entry.items }
    {
        DueList { frames }
    }

    /// Appends a frame that comes. The error is want of memory, and leaves the list as it was.
    pub fn push(&mut self, coming: DueFrame<'a>) -> Result<(), AllocError>
        ensures ok { OnOk result (self.new ≡ self.old ++ coming.entry ∷ []) }
        ensures err { OnErr result (self.new ≡ self.old) }
    {
        self.frames.push(coming)?;
        Ok(())
    }

    /// How many frames there are.
    pub fn len(&self) -> usize
        ensures { result ≡ length self.now }
    {
        self.frames.len()
    }

    /// The frame at a place, counted from 0.
    pub fn get(&self, i: usize) -> &Sent
        requires { i < length self.now }
        ensures { slice_get self.now i ≡ Some result.now }
    {
        self.frames[i].frame()
    }
}

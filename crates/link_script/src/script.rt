//! What the lines of a link do to frames.

ghost use Rattle.std.specs.Prelude.{◌≡◌, ◌≤◌, max, Some, IsNone, IfOk, OnOk, OnErr};
ghost use Rattle.tas_model.specs.declared.entry.FrameId as model;
ghost use Rattle.link_script.specs.DueFrames.{act_on, is_kth, delay_by, longest_delay};
ghost use Rattle.link_script.specs.LinkLines.{no_lines, line_on, drop_each_of, with_act, with_drop_each, TakesDelay};
ghost use Rattle.link_script.specs.LinkLines.{AreDelays};

use std::alloc::{AllocError, Global};
use std::collections::{BTreeMap, BTreeSet};
use std::marker::Model;
use tas_model::{FrameId, NO_FLOW};

/// The highest number of a frame that a line can name.
const MOST_NUMBER: u64 = 4_294_967_294;

/// A frame that a line names: the host that sends it, the opening number of the flow on that host, and the frame's
/// number in the flow, all from 0 on.
#[derive(Clone, Copy, PartialEq, Eq, PartialOrd, Ord, Debug)]
pub struct Target {
    pub host: u32,
    pub flow: u32,
    pub number: u32,
}

/// What a line does to its frame.
#[derive(Clone, Copy, PartialEq, Eq, Debug)]
pub enum LinkAct {
    /// It is lost.
    Drop,
    /// It comes twice.
    Dup,
    /// It comes so many ticks later.
    Delay(u32),
    /// All bits of the packet's byte at this place are inverted, where the packet has one.
    Corrupt(u32),
}

/// A line by which each k-th frame of each flow of the host is lost.
#[derive(Clone, Copy, PartialEq, Eq, Debug)]
pub struct DropEach {
    pub host: u32,
    pub k: u32,
}

/// The lines of a link.
#[derive(Drop)]
pub struct LinkScript {
    acts: BTreeMap<Target, LinkAct>,
    drops: Vec<DropEach>,
    delays: BTreeSet<u32>,
    /// The longest of them.
    longest: u32,
}

impl Model for LinkScript {
    ghost use Rattle.std.specs.Prelude.{◌≡◌};
    ghost use Rattle.link_script.specs.DueFrames.{longest_of};
    ghost use Rattle.link_script.specs.LinkLines.{LinkLines, HasDelays};

    ghost Value = { LinkLines };

    ghost view = { λ s. record { acts = s.acts.entries; drops = s.drops.items } };

    ghost invariant = { λ s. HasDelays s.acts s.delays × (s.longest ≡ longest_of s.acts.entries) };
}

impl LinkScript {
    /// A link without lines. The error is want of memory.
    pub fn new(alloc: Global) -> Result<LinkScript, AllocError>
        ensures { IfOk result (λ s. s ≡ no_lines) }
    {
        let mut delays = BTreeSet::new(alloc);
        delays.insert(0)?;
        Ok(LinkScript {
            acts: BTreeMap::new(alloc),
            drops: Vec::new(alloc),
            delays,
            longest: 0,
        })
    }

    /// A line on one frame, which has none yet. The error is want of memory, and leaves the link as it was.
    pub fn add(&mut self, host: u32, flow: u32, number: u32, act: LinkAct) -> Result<(), AllocError>
        requires { IsNone (line_on self.old (record { host = host; flow = flow; number = number })) }
        ensures ok { OnOk result (self.new ≡ with_act self.old
            (record { host = host; flow = flow; number = number }) act) }
        ensures err { OnErr result (self.new ≡ self.old) }
    {
        take_delay(&mut self.delays, act)?;
        self.acts.insert(Target { host, flow, number }, act)?;
        self.longest = longer(self.longest, act);
        Ok(())
    }

    /// A line by which each `k`-th frame of each flow of the host is lost, and none where `k` is 0; the host has no
    /// such line yet. The error is want of memory, and leaves the link as it was.
    pub fn drop_each(&mut self, host: u32, k: u32) -> Result<(), AllocError>
        requires { IsNone (drop_each_of self.old.drops host) }
        ensures ok { OnOk result (self.new ≡ with_drop_each self.old host k) }
        ensures err { OnErr result (self.new ≡ self.old) }
    {
        self.drops.push(DropEach { host, k })?;
        Ok(())
    }

    /// The lines on single frames, by host, flow and number.
    pub fn acts(&self) -> &BTreeMap<Target, LinkAct>
        ensures { result.now.entries ≡ self.now.acts }
    {
        &self.acts
    }

    /// The lines of whole hosts, in the order in which they came.
    pub fn drops(&self) -> &[DropEach]
        ensures { result.now ≡ self.now.drops }
    {
        self.drops.as_slice()
    }

    /// The k of the host's line, where it has one.
    pub fn drop_each_of(&self, host: u32) -> Option<u32>
        ensures { result ≡ drop_each_of self.now.drops host }
    {
        self.drops
            .iter()
            .find(|line| line.host == host)
            .map(|line| line.k)
    }

    /// The delays of all lines, and 0, which is the delay of all other frames.
    pub fn delays(&self) -> &BTreeSet<u32>
        ensures { AreDelays self.now result.now }
    {
        &self.delays
    }

    /// The longest delay of a line, in ticks; 0 where none delays.
    pub fn longest_delay(&self) -> u32
        ensures longest { result ≡ longest_delay self.now }
        ensures most { (id : model.FrameId) → delay_by (act_on self.now id) ≤ result }
    {
        self.longest
    }

    /// The line on this frame, where there is one.
    pub fn line_on(&self, target: &Target) -> Option<LinkAct>
        ensures { result ≡ line_on self.now target.now }
    {
        self.acts.get(target).copied()
    }

    /// The line that a frame meets, where there is one.
    pub fn act_on(&self, id: &FrameId) -> Option<LinkAct>
        ensures { result ≡ act_on self.now id.now }
    {
        if id.number > MOST_NUMBER {
            return None;
        }
        self.line_on(&Target {
            host: id.host,
            flow: id.flow,
            number: id.number as u32,
        })
    }

    /// Whether a frame is lost by its host's line.
    pub fn is_kth(&self, id: &FrameId) -> bool
        ensures { result ≡ is_kth (drop_each_of self.now.drops id.now.host) id.now }
    {
        match self.drop_each_of(id.host) {
            Some(k) => k > 0 && id.flow != NO_FLOW && id.number % k as u64 == k as u64 - 1,
            None => false,
        }
    }
}

/// The longer of a delay and that of a line.
fn longer(longest: u32, act: LinkAct) -> u32
    ensures { result ≡ max (delay_by (Some act)) longest }
{
    match act {
        LinkAct::Delay(ticks) => longest.max(ticks),
        _ => longest,
    }
}

/// Takes the delay of a line up. The error is want of memory.
fn take_delay(delays: &mut BTreeSet<u32>, act: LinkAct) -> Result<(), AllocError>
    ensures ok { OnOk result (TakesDelay delays.old delays.new act) }
    ensures err { OnErr result (TakesDelay delays.old delays.new LinkAct.Drop) }
{
    if let LinkAct::Delay(ticks) = act {
        delays.insert(ticks)?;
    }
    Ok(())
}

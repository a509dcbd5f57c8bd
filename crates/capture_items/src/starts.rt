//! What the host's own SYN segments show of its flows: their first numbers, and window scales.

ghost use Rattle.std.specs.Prelude.{◌≡◌, ◌+◌, ◌<◌, ◌≤◌, ◌^◌, Bool, List, [], OnOk, IfSome, if◌then◌else◌};
ghost use Rattle.pcap_frames.specs.Views.{form_in, record_in};
ghost use Rattle.tas_runs.specs.Records as model;
ghost use Rattle.tas_runs.specs.Records.{content_of_packet, item_of};
ghost use Rattle.tas_runs.specs.Starts.{first_start, limited, with_new};
ghost use Rattle.capture_items.specs.Starts.{AreStartsOf, AreOf, count_in, syn_for, kept_starts};
ghost use Rattle.capture_items.specs.Starts.{syn_in, syn_of, with_one};
ghost use Rattle.tas_model.specs.declared.entry.FourTuple.{FourTuple};
ghost use Rattle.host_rounds.specs.declared.opening.Start.{Start};
ghost use Rattle.host_rounds.specs.Hosts.{same_tuple};

use crate::item::sender_tuple;
use host_rounds::Start;
use pcap_frames::{CaptureHeader, RecordView, packet};
use segment_fields::read;
use std::alloc::{AllocError, Global};
use std::collections::{HashMap, HashSet};
use std::marker::Model;
use tas_model::FourTuple;
use tas_num::Seq;

/// The shift of a flow is so much at most.
const MOST_SHIFT: u8 = 10;

/// One of the different numbers of a four-tuple, by its place among them, from 0.
#[derive(Clone, Copy, PartialEq, Eq, Hash, Debug)]
struct Turn {
    tuple: FourTuple,
    place: usize,
}

/// A number that a local SYN segment of a four-tuple has.
#[derive(Clone, Copy, PartialEq, Eq, Hash, Debug)]
struct Known {
    tuple: FourTuple,
    number: u32,
}

/// What the local host of a replay gives its flows: what its own SYN segments in the capture show. It is seen as a
/// list, in which the number and the scale of such a segment stand behind its four-tuple and the number's place among
/// the different ones of that four-tuple.
#[derive(Drop)]
pub struct FlowStarts {
    syns: HashMap<Turn, Start>,
}

impl Model for FlowStarts {
    ghost use Rattle.std.specs.Prelude.{List};
    ghost use Rattle.host_rounds.specs.declared.opening.Start.{Start};
    ghost use Rattle.capture_items.specs.declared.starts.Turn.{Turn};

    ghost Value = { List (Turn × Start) };

    ghost view = { λ f. f.syns.entries };
}

/// The SYN segments that were met while the records are gone through.
#[derive(Drop)]
pub(crate) struct Numbering {
    syns: HashMap<Turn, Start>,
    known: HashSet<Known>,
    /// How many different numbers each four-tuple has.
    counts: HashMap<FourTuple, usize>,
}

impl Numbering {
    /// None was met.
    pub(crate) fn new(alloc: Global) -> Numbering
        ensures { (t : FourTuple) → AreOf result t [] }
    {
        Numbering {
            syns: HashMap::new(alloc),
            known: HashSet::new(alloc),
            counts: HashMap::new(alloc),
        }
    }

    /// What was met.
    pub(crate) fn finish(self) -> FlowStarts
        ensures { result ≡ self.syns.entries }
    {
        FlowStarts { syns: self.syns }
    }

    /// Takes up what a record shows that is a SYN segment of the host of the address `local`.
    pub(crate) fn take_up(
        &mut self,
        header: &CaptureHeader,
        view: &RecordView<'_>,
        local: u32,
    ) -> Result<(), AllocError>
        requires small { (t : FourTuple) → count_in self.old t + 1 < 2 ^ 64 }
        ensures ok { OnOk result ((t : FourTuple) (list : List Start) (loose : Bool) → AreOf self.old t list
            → AreOf self.new t (with_one list
            (syn_of t (item_of (form_in header.now) local loose (record_in view.now))))) }
    {
        match local_syn(header, view, local) {
            Some((tuple, syn)) => self.note(tuple, syn),
            None => Ok(()),
        }
    }

    /// Takes up a SYN segment of a four-tuple. A number is listed once.
    fn note(&mut self, tuple: FourTuple, syn: Start) -> Result<(), AllocError>
        requires small { count_in self.old tuple + 1 < 2 ^ 64 }
        ensures ok { OnOk result ((t : FourTuple) (list : List Start) → AreOf self.old t list
            → AreOf self.new t (if same_tuple t tuple then with_new list syn else list)) }
    {
        let is_new = self.known.insert(Known {
            tuple,
            number: syn.number.0,
        })?;
        if !is_new {
            return Ok(());
        }
        let count = self.counts.get(&tuple).copied().unwrap_or(0);
        let turn = Turn {
            tuple,
            place: count,
        };
        self.syns.insert(turn, syn)?;
        self.counts.insert(tuple, count + 1)?;
        Ok(())
    }
}

impl FlowStarts {
    /// What a flow of this four-tuple gets, where `k` flows of the four-tuple were opened before it, and `n` flows of
    /// the host: the number and the scale of the k-th number's first segment, or else a number alone.
    pub fn start(&self, tuple: FourTuple, k: usize, n: u32) -> Start
        ensures kept { result ≡ kept_starts self.now tuple k n }
        ensures items { (items : List model.Item) → AreStartsOf items self.now
            → result ≡ first_start items tuple k n }
        ensures shift { IfSome result.scale (λ shift. shift ≤ 10) }
    {
        match self.syns.get(&Turn { tuple, place: k }) {
            Some(syn) => limited(*syn),
            None => Start {
                number: Seq(n.wrapping_mul(64_000)),
                scale: None,
            },
        }
    }
}

/// The start that a SYN segment shows, with as much of its shift as a flow may have.
fn limited(syn: Start) -> Start
    ensures exact { result ≡ limited syn }
    ensures shift { IfSome result.scale (λ shift. shift ≤ 10) }
{
    let scale = match syn.scale {
        Some(shift) => Some(MOST_SHIFT.min(shift)),
        None => None,
    };
    Start { scale, ..syn }
}

/// The four-tuple of a record that is a SYN segment of the host of the address `local`, and what it shows. That it sent
/// the segment shows without a look at checksums.
fn local_syn(
    header: &CaptureHeader,
    view: &RecordView<'_>,
    local: u32,
) -> Option<(FourTuple, Start)>
    ensures { (t : FourTuple) (loose : Bool)
        → syn_for t result ≡ syn_of t (item_of (form_in header.now) local loose (record_in view.now)) }
{
    syn_in(packet(header, view)?, local)
}

/// The same of a packet.
fn syn_in(packet: &[u8], local: u32) -> Option<(FourTuple, Start)>
    ensures { (t : FourTuple) (loose : Bool)
        → syn_for t result ≡ syn_in t (content_of_packet local loose packet.now) }
{
    match read(packet, false) {
        Ok(segment) if segment.src == local && segment.flags.is_syn() => Some((
            sender_tuple(&segment),
            Start {
                number: segment.seq,
                scale: segment.scale,
            },
        )),
        _ => None,
    }
}

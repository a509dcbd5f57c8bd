//! Which arrows a ladder has: each frame with where it was sent and where it came.

ghost use Rattle.std.specs.Prelude.{◌≡◌, ◌++◌, ◌∷◌, [], List, map, is_some, IfOk, OnOk};
ghost use Rattle.ladder_picture.specs.Arrows as rules;
ghost use Rattle.ladder_picture.specs.Arrows.{Pass, pass};
ghost use Rattle.ladder_picture.specs.Joined.{AreOf, place_in, end_at, with_end, with_place, same_places};
ghost use Rattle.ladder_picture.specs.declared.row.Framed.TheVariants as framed;
ghost use Rattle.ladder_picture.specs.Views.{seen_sent};

use crate::row::{Fate, Frame, Framed};
use crate::rungs::{Rung, Side};
use std::alloc::{AllocError, Global};
use std::collections::HashMap;
use tas_model::FrameId;

/// A frame by its origin, whichever copy of it.
#[derive(Clone, Copy, PartialEq, Eq, Hash, Debug)]
pub struct FrameKey {
    pub host: u32,
    pub flow: u32,
    pub number: u64,
}

/// Where a frame came: how far down, what became of it where the connection had it not, and whether it is a second
/// copy.
#[derive(Clone, Copy)]
pub struct Arrival {
    pub y: u128,
    pub fate: Option<Fate>,
    pub again: bool,
}

/// The arrow of a frame that was sent on a rung, with where it came: nowhere, once, or twice where it was doubled.
#[derive(Drop)]
pub struct SentFrame {
    pub sender: Side,
    pub y: u128,
    pub frame: Frame,
    pub ends: Vec<Arrival>,
}

/// The arrow of a frame that came, and was not sent on a rung above.
#[derive(Clone, Copy)]
pub struct CameFrame {
    pub sender: Side,
    pub y: u128,
    pub frame: Frame,
}

/// The arrows of what passed so far. Of each frame that a side sent, the place of the latest arrow that begins with it
/// is known.
#[derive(Drop)]
pub struct Arrows {
    pub sent: Vec<SentFrame>,
    pub came: Vec<CameFrame>,
    left: HashMap<FrameKey, usize>,
    right: HashMap<FrameKey, usize>,
}

/// The side across.
pub fn across(side: Side) -> Side
    ensures { result ≡ rules.across side }
{
    match side {
        Side::Left => Side::Right,
        Side::Right => Side::Left,
    }
}

/// A frame by its origin.
fn key_of(id: FrameId) -> FrameKey
    ensures { result ≡ rules.key_of id }
{
    FrameKey {
        host: id.host,
        flow: id.flow,
        number: id.number,
    }
}

impl Arrows {
    /// None has passed.
    fn new(alloc: Global) -> Arrows
        ensures { AreOf result [] }
    {
        Arrows {
            sent: Vec::new(alloc),
            came: Vec::new(alloc),
            left: HashMap::new(alloc),
            right: HashMap::new(alloc),
        }
    }

    /// The place of the latest arrow that begins with this frame of a side.
    fn place(&self, sender: Side, key: FrameKey) -> Option<usize>
        ensures { result ≡ place_in self.now sender key }
    {
        match sender {
            Side::Left => self.left.get(&key).copied(),
            Side::Right => self.right.get(&key).copied(),
        }
    }

    /// Notes the place of the latest arrow that begins with this frame of a side.
    fn note(&mut self, sender: Side, key: FrameKey, place: usize) -> Result<(), AllocError>
        ensures places { OnOk result (with_place self.old self.new sender key place) }
        ensures sent { self.new.sent.items ≡ self.old.sent.items }
        ensures came { self.new.came.items ≡ self.old.came.items }
    {
        match sender {
            Side::Left => {
                self.left.insert(key, place)?;
                Ok(())
            }
            Side::Right => {
                self.right.insert(key, place)?;
                Ok(())
            }
        }
    }

    /// Takes up a frame that a side sent.
    fn send(&mut self, alloc: Global, side: Side, y: u128, frame: Frame) -> Result<(), AllocError>
        ensures { OnOk result ((ps : List Pass) → AreOf self.old ps
            → AreOf self.new (ps ++ pass side y (framed.Sent frame) ∷ [])) }
    {
        let place = self.sent.len();
        self.sent.push(SentFrame {
            sender: side,
            y,
            frame,
            ends: Vec::new(alloc),
        })?;
        self.note(side, key_of(frame.id), place)?;
        Ok(())
    }

    /// Adds an end to the arrow at a place.
    fn end(&mut self, place: usize, arrival: Arrival) -> Result<(), AllocError>
        ensures sent { OnOk result (map seen_sent self.new.sent.items
            ≡ end_at place arrival (map seen_sent self.old.sent.items)) }
        ensures came { self.new.came.items ≡ self.old.came.items }
        ensures places { same_places self.old self.new }
    {
        if let Some(sent) = self.sent.get_mut(place) {
            sent.ends.push(arrival)?;
        }
        Ok(())
    }

    /// Adds the end of a frame that came to a side to its latest arrow, and tells whether there is one.
    fn arrive(&mut self, side: Side, id: FrameId, arrival: Arrival) -> Result<bool, AllocError>
        ensures found { IfOk result (λ found. found
            ≡ is_some (place_in self.old (rules.across side) (rules.key_of id))) }
        ensures sent { OnOk result (map seen_sent self.new.sent.items
            ≡ with_end (place_in self.old (rules.across side) (rules.key_of id)) arrival
            (map seen_sent self.old.sent.items)) }
        ensures came { self.new.came.items ≡ self.old.came.items }
        ensures places { same_places self.old self.new }
    {
        match self.place(across(side), key_of(id)) {
            Some(place) => {
                self.end(place, arrival)?;
                Ok(true)
            }
            None => Ok(false),
        }
    }

    /// Takes up a frame that came to a side, and that the connection had.
    fn come(&mut self, side: Side, y: u128, frame: Frame) -> Result<(), AllocError>
        ensures { OnOk result ((ps : List Pass) → AreOf self.old ps
            → AreOf self.new (ps ++ pass side y (framed.Came frame) ∷ [])) }
    {
        let arrival = Arrival {
            y,
            fate: None,
            again: frame.id.copy > 0,
        };
        if !self.arrive(side, frame.id, arrival)? {
            self.came.push(CameFrame {
                sender: across(side),
                y,
                frame,
            })?;
        }
        Ok(())
    }

    /// Takes up a frame that came to a side, and that the connection had not.
    fn meet(&mut self, side: Side, y: u128, id: FrameId, fate: Fate) -> Result<(), AllocError>
        ensures { OnOk result ((ps : List Pass) → AreOf self.old ps
            → AreOf self.new (ps ++ pass side y (framed.Met id fate) ∷ [])) }
    {
        let arrival = Arrival {
            y,
            fate: Some(fate),
            again: id.copy > 0,
        };
        self.arrive(side, id, arrival)?;
        Ok(())
    }

    /// Takes up what passes at a side.
    fn take_up(
        &mut self,
        alloc: Global,
        side: Side,
        y: u128,
        framed: Framed,
    ) -> Result<(), AllocError>
        ensures { OnOk result ((ps : List Pass) → AreOf self.old ps → AreOf self.new (ps ++ pass side y framed ∷ [])) }
    {
        match framed {
            Framed::Sent(frame) => self.send(alloc, side, y, frame),
            Framed::Came(frame) => self.come(side, y, frame),
            Framed::Met { id, fate } => self.meet(side, y, id, fate),
            Framed::Nothing => Ok(()),
        }
    }

    /// Takes up what passes on a rung.
    fn take_rung(&mut self, alloc: Global, rung: &Rung) -> Result<(), AllocError>
        ensures { OnOk result ((ps : List Pass) → AreOf self.old ps
            → AreOf self.new (ps ++ rules.rung_passes rung.now)) }
    {
        self.take_up(alloc, Side::Left, rung.y, rung.framed(Side::Left))?;
        self.take_up(alloc, Side::Right, rung.y, rung.framed(Side::Right))?;
        Ok(())
    }
}

/// The arrows of a ladder. The error is want of memory.
pub fn arrows_of(alloc: Global, rungs: &[Rung]) -> Result<Arrows, AllocError>
    ensures sent { IfOk result (λ arrows. map seen_sent arrows.sent.items
        ≡ rules.sent_arrows (rules.passes rungs.now)) }
    ensures came { IfOk result (λ arrows. arrows.came.items ≡ rules.came_arrows [] (rules.passes rungs.now)) }
{
    let mut arrows = Arrows::new(alloc);
    for rung in rungs {
        arrows.take_rung(alloc, rung)?;
    }
    Ok(arrows)
}

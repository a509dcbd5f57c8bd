//! A queue of notes from many senders to one receiver.

ghost use Rattle.std.specs.Prelude.{◌≡◌, ◌<◌, ◌≤◌, ◌+◌, [], ◌∷◌, ◌++◌, IfOk, IsOk, IfSome, IfNone, OnOk, OnErr};
ghost use Rattle.crossbeam_queue.specs.Fifo.{Held};
ghost use Rattle.context_queue.specs.Notes.{HasTaken, HoldsPosts, HoldsRest};

use crate::delivery::{Delivery, Drain, NextSender, Post, View};
use crate::note::{Letter, Note};
use crossbeam_queue::{Pass, RuledArrayQueue};
use std::alloc::{AllocError, Global};
use std::marker::Model;
use std::sync::Wait;

/// A queue of notes from many senders to one receiver.
/// Threads share it by `&`, each sender with a `SenderPass` of its own.
///
/// It is seen as its place: which queue it is, and its room, in notes. What stands in it is known by passes alone.
#[derive(Drop)]
pub struct ContextQueue {
    line: RuledArrayQueue<Letter, View, Delivery>,
}

impl Model for ContextQueue {
    ghost use Rattle.context_queue.specs.Notes.{Place};

    ghost Value = { Place };

    ghost view = { λ q. record { line = q.line.table.shared.table_id; room = q.line.cap } };
}

/// The right of one sender to post. It is seen as its queue, its number and the notes that it posted.
#[derive(Drop)]
pub struct SenderPass {
    number: u32,
    pass: Pass<Letter, View>,
}

impl Model for SenderPass {
    ghost use Rattle.std.specs.Prelude.{◌≡◌, []};
    ghost use Rattle.context_queue.specs.Notes.{Sender};
    ghost use Rattle.context_queue.specs.Delivery.{sender};

    ghost Value = { Sender };

    ghost view = { λ s. record { line = s.pass.table_id; number = s.number; posts = s.pass.me.0.client.posts } };

    ghost invariant = { λ s. (s.pass.me.0.client ≡ sender s.number s.pass.me.0.client.posts) × (s.pass.me.1 ≡ []) };
}

/// The right of the one receiver to take notes, and to make senders. It is seen as its queue, the number of senders
/// that were made, and the notes taken, each with its sender's number.
#[derive(Drop)]
pub struct ReceiverPass {
    senders: u32,
    pass: Pass<Letter, View>,
}

impl Model for ReceiverPass {
    ghost use Rattle.std.specs.Prelude.{◌≡◌, []};
    ghost use Rattle.context_queue.specs.Notes.{Receiver};
    ghost use Rattle.context_queue.specs.Delivery.{receiver};

    ghost Value = { Receiver };

    ghost view = { λ r. record { line = r.pass.table_id; senders = r.senders; taken = r.pass.me.0.client.taken } };

    ghost invariant = { λ r. (r.pass.me.0.client ≡ receiver r.pass.me.0.client.taken r.senders) × (r.pass.me.1 ≡ []) };
}

/// The queue was full.
#[derive(Clone, Copy, PartialEq, Eq, Debug, Drop)]
pub struct Full;

impl ContextQueue {
    /// An empty queue that holds `room` notes, 1 to 65,536, and its receiver's pass. The error is want of memory.
    pub fn new(alloc: Global, room: u32) -> Result<(ContextQueue, ReceiverPass), AllocError>
        requires room { (0 < room) × (room ≤ 65536) }
        ensures room { IfOk result (λ made. made.0.room ≡ room) }
        ensures own { IfOk result (λ made. made.1.line ≡ made.0.line) }
        ensures new { IfOk result (λ made. (made.1.senders ≡ 0) × (made.1.taken ≡ [])) }
    {
        let (line, pass) = RuledArrayQueue::ruled(alloc, room as usize)?;
        Ok((ContextQueue { line }, ReceiverPass { senders: 0, pass }))
    }

    /// How many notes it holds at most.
    pub fn room(&self) -> usize
        ensures { result ≡ self.now.room }
    {
        self.line.capacity()
    }

    /// The pass of the next sender. Senders are numbered from 0 in the order in which they are made. It takes no
    /// memory, and fails only where all numbers were given; then nothing changes.
    pub fn sender(&self, _alloc: Global, r: &mut ReceiverPass) -> Result<SenderPass, AllocError>
        requires own { r.old.line ≡ self.now.line }
        ensures made { r.old.senders < 4294967295 → IsOk result }
        ensures new { IfOk result (λ s. s ≡ record { line = self.now.line; number = r.old.senders; posts = [] }) }
        ensures counted { OnOk result (r.new ≡ record r.old { senders = r.old.senders + 1 }) }
        ensures err { OnErr result (r.new ≡ r.old) }
    {
        let number = r.senders;
        let next = number.checked_add(1).ok_or(AllocError)?;
        let pass = self.line.another::<NextSender>(&mut r.pass);
        r.senders = next;
        Ok(SenderPass { number, pass })
    }

    /// Posts a note behind all that stand in the queue. `Full` comes only where the queue was full at some moment of
    /// the call, and then nothing was posted.
    pub fn post<R: Wait>(&self, rt: &R, s: &mut SenderPass, n: Note) -> Result<(), Full>
        requires own { s.old.line ≡ self.now.line }
        ensures posted { OnOk result (s.new ≡ record s.old { posts = s.old.posts ++ n ∷ [] }) }
        ensures full { OnErr result (Held self.now.room (HoldsPosts s.old)) }
        ensures err { OnErr result (s.new ≡ s.old) }
    {
        let letter = Letter {
            from: s.number,
            note: n,
        };
        match self.line.push_as::<Post, R>(rt, &mut s.pass, letter) {
            Ok(()) => Ok(()),
            Err(_) => Err(Full),
        }
    }

    /// Takes the note that has stood in the queue the longest. `None` comes only where the queue was empty at some
    /// moment of the call, and then nothing was taken.
    pub fn drain_one<R: Wait>(&self, rt: &R, r: &mut ReceiverPass) -> Option<Note>
        requires own { r.old.line ≡ self.now.line }
        ensures taken { IfSome result (λ n. HasTaken n r.old r.new) }
        ensures empty { IfNone result (Held 0 (HoldsRest r.old)) }
        ensures none { IfNone result (r.new ≡ r.old) }
    {
        let letter = self.line.pop_as::<Drain, R>(rt, &mut r.pass)?;
        Some(letter.note)
    }
}

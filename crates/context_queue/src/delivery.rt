// The rule of the queue, and what a pass knows.
use crate::note::{Letter, Note};
use crossbeam_queue::protocol::{Lesson, Outcome, Protocol, Split};
use std::collections::LinkedList;

/// What a pass knows: whether it sends, by which number and what it posted; whether it receives, what it took and how
/// many senders it made. No value of it is made.
pub struct View {
    pub sends: bool,
    pub number: u64,
    pub posts: LinkedList<Note>,
    pub receives: bool,
    pub taken: LinkedList<Letter>,
    pub senders: u64,
}

pub struct Delivery;

impl Protocol<Letter, View> for Delivery {
    ghost use Rattle.std.specs.Prelude.{[]};
    ghost use Rattle.context_queue.specs.Delivery.{Delivers, receiver};

    ghost holds = { Delivers };

    ghost first = { receiver [] 0 };
}

pub struct Post;

impl Outcome<Letter, View> for Post {
    ghost use Rattle.context_queue.specs.Delivery.{posted};

    ghost then = { posted };
}

impl Lesson<Letter, View> for Post {
    ghost use Rattle.context_queue.specs.Delivery.{Sees};

    ghost fact = { Sees };
}

pub struct Drain;

impl Outcome<Letter, View> for Drain {
    ghost use Rattle.context_queue.specs.Delivery.{drained};

    ghost then = { drained };
}

impl Lesson<Letter, View> for Drain {
    ghost use Rattle.context_queue.specs.Delivery.{HasAll};

    ghost fact = { HasAll };
}

pub struct NextSender;

impl Split<View> for NextSender {
    ghost use Rattle.std.specs.Prelude.{[], ◌+◌};
    ghost use Rattle.context_queue.specs.Delivery.{receiver, sender};

    ghost left = { λ v. receiver v.taken (v.senders + 1) };

    ghost right = { λ v. sender v.senders [] };
}

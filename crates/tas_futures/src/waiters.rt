//! Where tasks wait for the sides of an application's sockets, and how they are woken.
ghost use Rattle.std.specs.Prelude.{◌≡◌, ◌≤◌, ◌<◌, ◌⊎◌, List, [], ◌++◌, length, true, false};
ghost use Rattle.std.specs.Prelude.{IsSome, IsSomeAnd, OnOk, OnErr};
ghost use Rattle.futures.specs.Task.{Hears, IsArmed, Keeps, Wakes};
ghost use Rattle.tas_futures.specs.declared.waiters.Place.{Place};
ghost use Rattle.tas_futures.specs.Waiting.{CannotWait, IsWaiting, KeepsOthers, notified, without_waker};

use crate::side::{Side, key};
use context_queue::Note;
use futures::task::{Context, Poll, Source, Waker};
use libtas_sockets::Socket;
use std::alloc::{AllocError, Global};
use std::marker::Model;

/// Where one task may wait: what it waits for, and its waker, while it does.
#[derive(Drop)]
pub struct Place {
    source: Source,
    waker: Option<Waker>,
}

/// Where tasks wait for the sides of an application's sockets: a place for each key, from the first one on. One task
/// waits at a place; another that comes there takes its place and wakes it.
#[derive(Drop)]
pub struct Waiters {
    places: Vec<Place>,
}

impl Model for Waiters {
    ghost use Rattle.std.specs.Prelude.{List};
    ghost use Rattle.tas_futures.specs.declared.waiters.Place.{Place};

    ghost Value = { List Place };

    ghost view = { λ w. w.places.items };
}

impl Place {
    fn new() -> Place {
        Place {
            source: Source::new(),
            waker: None,
        }
    }

    /// The task of this poll waits here. Whether it has a waker.
    fn register(&mut self, cx: &mut Context<'_>) -> bool
        ensures heard { Hears cx.new self.new.source.id }
        ensures armed { IsArmed cx.new }
        ensures kept { Keeps cx.old cx.new }
        ensures source { self.new.source ≡ self.old.source }
        ensures waker { result ≡ true → IsSome self.new.waker }
        ensures left { (cx.new.lacks_waker ≡ true) ⊎ IsSomeAnd self.new.waker (λ w. Wakes w cx.old) }
        ensures lacks { result ≡ false → cx.new.lacks_waker ≡ true }
    {
        drop(cx.register::<()>(&self.source, &mut self.waker));
        self.waker.is_some()
    }
}

impl Waiters {
    /// Nobody waits. It takes no memory.
    pub fn new(alloc: Global) -> Waiters
        ensures { result ≡ [] }
    {
        Waiters {
            places: Vec::new(alloc),
        }
    }

    /// The task of this poll waits for the side with this key, until a note tells of that side. False: it does not,
    /// for want of memory.
    pub(crate) fn register(&mut self, key: u64, cx: &mut Context<'_>) -> bool
        ensures waits { result ≡ true → IsWaiting self.new key cx.old cx.new }
        ensures armed { result ≡ true → IsArmed cx.new }
        ensures cannot { result ≡ false → CannotWait self.old key cx.new }
        ensures others { KeepsOthers key self.old self.new }
        ensures kept { Keeps cx.old cx.new }
    {
        let at = key as usize;
        if self.reach(at).is_err() {
            return false;
        }
        let place = &mut self.places[at];
        place.register(cx)
    }

    /// Makes places up to this one.
    fn reach(&mut self, at: usize) -> Result<(), AllocError>
        ensures reached { OnOk result (at < length self.new) }
        ensures short { OnErr result (length self.old ≤ at) }
        ensures grown { (more : List Place) × (self.new ≡ self.old ++ more) }
    {
        while self.places.len() <= at {
            self.places.push(Place::new())?;
        }
        Ok(())
    }

    /// Wakes the tasks that wait for what a note tells of: kind 1, the side that is read; 2, the side that is written;
    /// 3, both.
    pub fn notify(&mut self, note: Note)
        ensures { self.new ≡ notified note self.old }
    {
        let s = Socket(note.slot);
        if note.kind == 1 || note.kind == 3 {
            self.wake(key(s, Side::Read));
        }
        if note.kind == 2 || note.kind == 3 {
            self.wake(key(s, Side::Write));
        }
    }

    /// Wakes the task that waits for the side with this key: a waker wakes its task when it is dropped.
    fn wake(&mut self, key: u64)
        ensures { self.new ≡ without_waker key self.old }
    {
        if let Some(place) = self.places.get_mut(key as usize) {
            place.waker = None;
        }
    }
}

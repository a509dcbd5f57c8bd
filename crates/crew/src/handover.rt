//! The rule of a desk: what its two sides know, and what each step on it tells them.
use crate::job::Job;
use atomic_table::{Play, Split, TableRule};
use std::marker::PhantomData;

/// What a side of a desk knows: the dispatcher, who hands jobs out, or the worker, who takes them. No value of it is
/// made.
pub enum View<W> {
    /// Both sides at once, before the desk was cleared.
    Whole,
    /// Both sides at once, who have the empty desk.
    Both,
    /// The dispatcher has the desk, and knows of no thread behind it.
    Unmanned,
    /// The dispatcher has the desk, and a thread is behind it.
    Idle,
    /// The dispatcher handed this job out.
    Sent(W),
    /// The dispatcher said that no more jobs come.
    Stopped,
    /// The worker's thread has not begun.
    Away,
    /// The worker has no job.
    Free,
    /// The worker has begun this job.
    Works(W),
    /// The worker knows that no more jobs come.
    Gone,
}

/// What holds of a desk between any two steps.
pub struct Handover<W> {
    marker: PhantomData<W>,
}

impl<W: Job> TableRule<Option<W>, View<W>, ()> for Handover<W> {
    ghost use Rattle.crew.specs.Desks.{Lawful};
    ghost use Rattle.crew.specs.declared.handover.View.TheVariants.{Whole};

    ghost holds = { λ _. Lawful W.can W.made };

    ghost first = { λ _. Whole };
}

/// The empty desk is taken.
pub struct Clear;

impl<W> Play<Option<W>, View<W>> for Clear {
    ghost use Rattle.crew.specs.Desks.{clears};

    ghost then = { clears };
}

/// The two sides part.
pub struct Part;

impl<W> Split<View<W>> for Part {
    ghost use Rattle.crew.specs.Desks.{dispatcher_of, worker_of};

    ghost left = { dispatcher_of };

    ghost right = { worker_of };
}

/// The dispatcher asks whether a thread is behind the desk.
pub struct Ask;

impl<W> Play<Option<W>, View<W>> for Ask {
    ghost use Rattle.crew.specs.Desks.{asks};

    ghost then = { asks };
}

/// The dispatcher hands a job out.
pub struct HandOut;

impl<W> Play<Option<W>, View<W>> for HandOut {
    ghost use Rattle.crew.specs.Desks.{hands_out};

    ghost then = { hands_out };
}

/// The dispatcher takes back the job that nobody has begun.
pub struct Recall;

impl<W> Play<Option<W>, View<W>> for Recall {
    ghost use Rattle.crew.specs.Desks.{recalls};

    ghost then = { recalls };
}

/// The dispatcher takes the job back, where it is done.
pub struct TakeBack;

impl<W: Job> Play<Option<W>, View<W>> for TakeBack {
    ghost use Rattle.crew.specs.Desks.{takes_back};

    ghost then = { takes_back W.can W.made };
}

/// The dispatcher says that no more jobs come.
pub struct Stop;

impl<W> Play<Option<W>, View<W>> for Stop {
    ghost use Rattle.crew.specs.Desks.{stops};

    ghost then = { stops };
}

/// The worker's thread begins.
pub struct Arrive;

impl<W> Play<Option<W>, View<W>> for Arrive {
    ghost use Rattle.crew.specs.Desks.{arrives};

    ghost then = { arrives };
}

/// The worker looks for a job.
pub struct Look;

impl<W> Play<Option<W>, View<W>> for Look {
    ghost use Rattle.crew.specs.Desks.{looks};

    ghost then = { looks };
}

/// The worker begins a job.
pub struct Claim;

impl<W: Job> Play<Option<W>, View<W>> for Claim {
    ghost use Rattle.crew.specs.Desks.{claims};

    ghost then = { claims W.can W.made };
}

/// The worker hands a job back.
pub struct HandBack;

impl<W> Play<Option<W>, View<W>> for HandBack {
    ghost use Rattle.crew.specs.Desks.{hands_back};

    ghost then = { hands_back };
}

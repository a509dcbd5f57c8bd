//! A desk with a thread behind it, as the side sees it that hands jobs out.
ghost use Rattle.std.specs.Prelude.{◌≡◌, ◌+◌, ◌<◌, ◌∷◌, ◌++◌, [], length, All, IsTrue, IfSome, OnSome, None};
ghost use Rattle.std.specs.Prelude.{vec_capacity};
ghost use Rattle.crew.specs.Crews.{desk_of, desks_of, IsReady, HasThread, IsOutAt, HasStopped};

use crate::desk::{Desk, Dispatcher};
use crate::job::Job;
use std::alloc::Global;
use std::sync::{Arc, Wait};

/// A post: its desk, which the thread shares, and this side of it.
#[derive(Drop)]
pub struct Post<W: Job + Drop> {
    pub(crate) desk: Arc<Desk<W>, Global>,
    pub(crate) dispatcher: Dispatcher<W>,
}

impl<W: Job + Drop> Post<W> {
    /// Whether a thread is behind the desk.
    pub(crate) fn is_manned(&mut self) -> bool
        requires { IsReady self.old }
        ensures ready { IsReady self.new }
        ensures manned { IsTrue result → HasThread self.new }
        ensures known { HasThread self.old → IsTrue result }
        ensures desk { desk_of self.new ≡ desk_of self.old }
    {
        self.desk.is_manned(&mut self.dispatcher)
    }

    /// Hands a job out, and wakes its thread, where that sleeps.
    pub(crate) fn send(&mut self, job: W)
        requires thread { HasThread self.old }
        requires can { W.can job }
        ensures out { IsOutAt job self.new }
        ensures desk { desk_of self.new ≡ desk_of self.old }
    {
        self.desk.send(&mut self.dispatcher, job);
        self.desk.wake();
    }

    /// The job that is out, as it was handed out, where its thread does not begin it in a little time.
    pub(crate) fn recall(&mut self) -> Option<W>
        requires { (x : W) × IsOutAt x self.old }
        ensures job { IfSome result (λ y. (x : W) → IsOutAt x self.old → y ≡ x) }
        ensures ready { OnSome result (IsReady self.new) }
        ensures none { result ≡ None → (x : W) → IsOutAt x self.old → IsOutAt x self.new }
        ensures desk { desk_of self.new ≡ desk_of self.old }
    {
        self.desk.recall(&mut self.dispatcher)
    }

    /// Waits until the job that is out is done, and takes it back.
    pub(crate) fn receive<R: Wait>(&mut self, rt: &R) -> W
        requires { (x : W) × IsOutAt x self.old }
        ensures made { (x : W) → IsOutAt x self.old → W.made x result }
        ensures ready { IsReady self.new }
        ensures desk { desk_of self.new ≡ desk_of self.old }
    {
        self.desk.receive(rt, &mut self.dispatcher)
    }

    /// Says that no more jobs come.
    pub(crate) fn stop(&mut self)
        requires { IsReady self.old }
        ensures stopped { HasStopped self.new }
        ensures desk { desk_of self.new ≡ desk_of self.old }
    {
        self.desk.stop(&mut self.dispatcher);
    }
}

/// Takes the last post away, if there is one.
pub(crate) fn take_post<W: Job + Drop>(posts: &mut Vec<Post<W>>) -> Option<Post<W>>
    requires { All IsReady posts.old.items }
    ensures one { IfSome result IsReady }
    ensures rest { All IsReady posts.new.items }
    ensures desks { IfSome result (λ p. desks_of posts.old.items ≡ desks_of posts.new.items ++ desk_of p ∷ []) }
    ensures len { IfSome result (λ _. length posts.new.items + 1 ≡ length posts.old.items) }
    ensures none { result ≡ None → (posts.old.items ≡ []) × (posts.new.items ≡ []) }
    ensures room { vec_capacity posts.new ≡ vec_capacity posts.old }
{
    posts.pop()
}

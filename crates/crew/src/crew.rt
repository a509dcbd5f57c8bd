//! A phase: jobs that a crew's threads and the caller work on side by side.
ghost use Rattle.std.specs.Prelude.{◌≡◌, ◌<◌, ◌≤◌, ◌+◌, ◌++◌, length, All, vec_capacity};
ghost use Rattle.std.specs.List.{AllZip};
ghost use Rattle.crew.specs.Crews.{IsReady, IsOutAt, desk_of, desks_of};

use crate::batch::{Batch, cut, weight_of, work_each};
use crate::job::{Job, Weighed};
use crate::post::{Post, take_post};
use std::marker::Model;
use std::sync::Wait;
use tas_num::Gate;

/// Threads that wait for jobs. A contract sees their desks.
#[derive(Drop)]
pub struct Crew<W: Job + Drop> {
    pub(crate) posts: Vec<Post<Batch<W>>>,
}

impl<W: Job + Drop> Model for Crew<W> {
    ghost use Rattle.std.specs.Prelude.{List, All};
    ghost use Rattle.atomic_table.specs.Seated.{TableId};
    ghost use Rattle.crew.specs.Crews.{IsReady, desks_of};

    ghost Value = { List TableId };

    ghost view = { λ c. desks_of c.posts.items };

    ghost invariant = { λ c. All IsReady c.posts.items };
}

impl<W: Job + Drop> Crew<W> {
    /// How many threads were asked for.
    pub fn threads(&self) -> usize
        ensures { result ≡ length self.now }
    {
        self.posts.len()
    }
}

impl<W: Job + Weighed + Drop> Crew<W> {
    /// Works on all jobs side by side, and returns when each is done. Its workers are the threads that were asked for
    /// and the caller, counted as it begins. The jobs are cut into as many runs, with as much to do in each by their
    /// weights; where there are no more jobs than workers, no thread gets two. Each thread is handed a run, from the
    /// last on, and one that has not started is passed over. The caller works on the jobs that are left, and then on
    /// each run that no thread has begun meanwhile. A job is back in its place, as its own work left it.
    pub fn phase<R: Wait, G: Gate>(&mut self, rt: &R, gate: &G, jobs: &mut Vec<W>)
        requires { All W.can jobs.old.items }
        ensures made { AllZip W.made jobs.old.items jobs.new.items }
        ensures room { vec_capacity jobs.old ≤ vec_capacity jobs.new }
        ensures same { self.new ≡ self.old }
    {
        let weight = weight_of(jobs.as_slice(), 0);
        let workers = self.posts.len() + 1;
        work_all(rt, gate, &mut self.posts, jobs, weight, workers);
    }
}

/// The jobs, which have this weight, by the threads of these posts, the last ones by the last post's, and by the
/// caller. They are cut for so many workers: the caller, these threads, and those that were passed over.
#[cycle(sharing)]
fn work_all<R: Wait, G: Gate, W: Job + Weighed + Drop>(
    rt: &R,
    gate: &G,
    posts: &mut Vec<Post<Batch<W>>>,
    jobs: &mut Vec<W>,
    weight: usize,
    workers: usize,
)
    requires workers { length posts.old.items < workers }
    requires ready { All IsReady posts.old.items }
    requires can { All W.can jobs.old.items }
    ensures ready { All IsReady posts.new.items }
    ensures len { length posts.new.items ≡ length posts.old.items }
    ensures desks { desks_of posts.new.items ≡ desks_of posts.old.items }
    ensures made { AllZip W.made jobs.old.items jobs.new.items }
    ensures room { vec_capacity jobs.old ≤ vec_capacity jobs.new }
    ensures posts_room { vec_capacity posts.new ≡ vec_capacity posts.old }
{
    if jobs.len() < 2 {
        work_here(rt, gate, jobs);
        return;
    }
    let Some(mut post) = take_post(posts) else {
        work_here(rt, gate, jobs);
        return;
    };
    share(rt, gate, &mut post, posts, jobs, weight, workers);
    posts.push_reserved(post);
}

/// The last jobs by this post's thread, where there is one, and the others by those posts' and the caller. Where that
/// thread has not begun by then, as it sleeps or has no processor, the caller works in its place. A thread that has not
/// started stays counted, so that no other thread's run is the longer for it.
#[cycle(sharing)]
fn share<R: Wait, G: Gate, W: Job + Weighed + Drop>(
    rt: &R,
    gate: &G,
    post: &mut Post<Batch<W>>,
    posts: &mut Vec<Post<Batch<W>>>,
    jobs: &mut Vec<W>,
    weight: usize,
    workers: usize,
)
    requires some { 0 < length jobs.old.items }
    requires workers { length posts.old.items + 1 < workers }
    requires one { IsReady post.old }
    requires ready { All IsReady posts.old.items }
    requires can { All W.can jobs.old.items }
    ensures one { IsReady post.new }
    ensures one_desk { desk_of post.new ≡ desk_of post.old }
    ensures ready { All IsReady posts.new.items }
    ensures len { length posts.new.items ≡ length posts.old.items }
    ensures desks { desks_of posts.new.items ≡ desks_of posts.old.items }
    ensures made { AllZip W.made jobs.old.items jobs.new.items }
    ensures room { vec_capacity jobs.old ≤ vec_capacity jobs.new }
    ensures posts_room { vec_capacity posts.new ≡ vec_capacity posts.old }
{
    if !post.is_manned() {
        work_all(rt, gate, posts, jobs, weight, workers);
        return;
    }
    let cut = cut(jobs.as_slice(), weight, workers);
    let Ok(last) = jobs.split_off(cut.at) else {
        work_all(rt, gate, posts, jobs, weight, workers);
        return;
    };
    post.send(Batch { jobs: last });
    let left = weight.saturating_sub(cut.weight);
    work_all(rt, gate, posts, jobs, left, workers - 1);
    let mut done = finish(rt, gate, post);
    put_behind(jobs, &mut done.jobs);
}

/// These jobs go behind the others, for which there is room.
fn put_behind<W>(jobs: &mut Vec<W>, done: &mut Vec<W>)
    requires room { length jobs.old.items + length done.old.items ≤ vec_capacity jobs.old }
    ensures items { jobs.new.items ≡ jobs.old.items ++ done.old.items }
    ensures room { vec_capacity jobs.old ≤ vec_capacity jobs.new }
{
    let Ok(()) = jobs.append(done) else {
        unreachable!()
    };
}

/// The job that is out at this post, done: by the caller, where its thread has not begun it.
fn finish<R: Wait, G: Gate, W: Job + Drop>(rt: &R, gate: &G, post: &mut Post<W>) -> W
    requires { (x : W) × W.can x × IsOutAt x post.old }
    ensures made { (x : W) → IsOutAt x post.old → W.made x result }
    ensures ready { IsReady post.new }
    ensures desk { desk_of post.new ≡ desk_of post.old }
{
    let Some(mut left) = post.recall() else {
        return post.receive(rt);
    };
    left.work(rt, gate);
    left
}

/// The jobs by the caller, one after the other.
fn work_here<R: Wait, G: Gate, W: Job>(rt: &R, gate: &G, jobs: &mut Vec<W>)
    requires can { All W.can jobs.old.items }
    ensures made { AllZip W.made jobs.old.items jobs.new.items }
    ensures room { vec_capacity jobs.old ≤ vec_capacity jobs.new }
{
    work_each(rt, gate, jobs.as_mut_slice());
}

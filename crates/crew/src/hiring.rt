//! Threads that start before a run, and end after it.
ghost use Rattle.std.specs.Prelude.{◌≡◌, ℕ, ◌+◌, ◌≤◌, ◌∷◌, ◌++◌, [], length, All, IfOk, IfErr, OnErr, vec_capacity};
ghost use Rattle.std.specs.Arc.{arc_value};
ghost use Rattle.std.specs.Thread.{IsSync};
ghost use Rattle.crew.specs.Desks.{IsAway};
ghost use Rattle.crew.specs.Crews.{IsReady, HasStopped, desks_of, Continues};

use crate::batch::Batch;
use crate::crew::Crew;
use crate::desk::{Desk, Worker};
use crate::job::Job;
use crate::post::{Post, take_post};
use std::alloc::{AllocError, Global};
use std::sync::{Arc, Wait};
use std::thread;
use std::thread::Threads;
use tas_num::Gate;

/// What is done with a crew.
pub trait Run<W: Job + Drop> {
    type Answer;

    /// It may run.
    ghost can: { Self → Type 0 };

    /// What it answers with a crew of so many threads.
    ghost gives: { Self → ℕ → Self.Answer → Type 0 };

    /// Runs. The crew that it leaves is the one that it was lent.
    fn run<R: Threads + Wait + Sync, G: Gate + Sync>(
        self,
        rt: &R,
        gate: &G,
        crew: &mut Crew<W>,
    ) -> Self::Answer
        requires { can self }
        ensures gives { gives self (length crew.old) result }
        ensures crew { crew.new ≡ crew.old };
}

/// Runs with so many threads beside the caller's, each of which ends before this returns. One that can't be started is
/// never sent a job. The error is want of memory for the desks; nothing was run then.
pub fn with_crew<W: Job + Drop + Send, R: Threads + Wait + Sync, G: Gate + Sync, X: Run<W> + Drop>(
    rt: &R,
    gate: &G,
    alloc: Global,
    threads: usize,
    run: X,
) -> Result<X::Answer, AllocError>
    requires { X.can run }
    ensures { IfOk result (X.gives run threads) }
{
    let posts = Vec::with_capacity(alloc, threads)?;
    let Ended { posts, answer } = hire(rt, gate, alloc, threads, posts, run);
    drop(posts);
    answer
}

/// What a run answered, and the posts that it had, whose threads are told to end.
struct Ended<W: Job + Drop, A> {
    posts: Vec<Post<W>>,
    answer: Result<A, AllocError>,
}

/// Runs with these threads and as many more as make up so many.
fn hire<W: Job + Drop + Send, R: Threads + Wait + Sync, G: Gate + Sync, X: Run<W> + Drop>(
    rt: &R,
    gate: &G,
    alloc: Global,
    threads: usize,
    posts: Vec<Post<Batch<W>>>,
    run: X,
) -> Ended<Batch<W>, X::Answer>
    requires can { X.can run }
    requires ready { All IsReady posts.items }
    requires fewer { length posts.items ≤ threads }
    requires room { threads ≤ vec_capacity posts }
    ensures gives { IfOk result.answer (X.gives run threads) }
    ensures stopped { All HasStopped result.posts.items }
    ensures desks { Continues (desks_of posts.items) (desks_of result.posts.items) }
{
    let mut posts = posts;
    if posts.len() == threads {
        return run_with(rt, gate, posts, run);
    }
    let (desk, worker) = match man(alloc, &mut posts) {
        Ok(made) => made,
        Err(error) => return stopped(posts, Err(error)),
    };
    let (_, ended) = thread::join(
        rt,
        ||
            requires { IsAway (arc_value desk) worker.seat }
        {
            let mut worker = worker;
            desk.serve(rt, gate, &mut worker);
        },
        || -> Ended<Batch<W>, X::Answer>
            requires sync { IsSync R.row }
            requires can { X.can run }
            requires ready { All IsReady posts.items }
            requires fewer { length posts.items ≤ threads }
            requires room { threads ≤ vec_capacity posts }
            ensures gives { IfOk result.answer (X.gives run threads) }
            ensures stopped { All HasStopped result.posts.items }
            ensures desks { Continues (desks_of posts.items) (desks_of result.posts.items) }
        { hire(rt, gate, alloc, threads, posts, run) },
    );
    ended
}

/// A desk more. The answer is the side of it that works.
fn man<W: Job + Drop>(
    alloc: Global,
    posts: &mut Vec<Post<W>>,
) -> Result<(Arc<Desk<W>, Global>, Worker<W>), AllocError>
    requires ready { All IsReady posts.old.items }
    requires room { length posts.old.items + 1 ≤ vec_capacity posts.old }
    ensures away { IfOk result (λ d. IsAway (arc_value d.0) d.1.seat) }
    ensures desk { IfOk result (λ d. desks_of posts.new.items ≡ desks_of posts.old.items ++ arc_value d.0 ∷ []) }
    ensures ready { All IsReady posts.new.items }
    ensures room { vec_capacity posts.new ≡ vec_capacity posts.old }
    ensures len { IfOk result (λ d. length posts.new.items ≡ length posts.old.items + 1) }
    ensures none { IfErr result (λ _. posts.new.items ≡ posts.old.items) }
{
    let (desk, dispatcher, worker) = Desk::new(alloc)?;
    let desk = Arc::new(alloc, desk)?;
    let theirs = Arc::try_clone(&desk)?;
    posts.push_reserved(Post { desk, dispatcher });
    Ok((theirs, worker))
}

/// Runs with these threads, and tells them to end.
fn run_with<W: Job + Drop, R: Threads + Wait + Sync, G: Gate + Sync, X: Run<W>>(
    rt: &R,
    gate: &G,
    posts: Vec<Post<Batch<W>>>,
    run: X,
) -> Ended<Batch<W>, X::Answer>
    requires can { X.can run }
    requires ready { All IsReady posts.items }
    ensures gives { IfOk result.answer (X.gives run (length posts.items)) }
    ensures stopped { All HasStopped result.posts.items }
    ensures desks { desks_of result.posts.items ≡ desks_of posts.items }
{
    let mut crew = Crew { posts };
    let answer = run.run(rt, gate, &mut crew);
    stopped(crew.posts, Ok(answer))
}

/// This answer, once the threads of these posts are told to end.
fn stopped<W: Job + Drop, A>(posts: Vec<Post<W>>, answer: Result<A, AllocError>) -> Ended<W, A>
    requires { All IsReady posts.items }
    ensures answer { result.answer ≡ answer }
    ensures stopped { All HasStopped result.posts.items }
    ensures desks { desks_of result.posts.items ≡ desks_of posts.items }
{
    let mut posts = posts;
    stop_all(&mut posts);
    Ended { posts, answer }
}

/// Tells the threads of these posts to end.
fn stop_all<W: Job + Drop>(posts: &mut Vec<Post<W>>)
    requires { All IsReady posts.old.items }
    ensures stopped { All HasStopped posts.new.items }
    ensures desks { desks_of posts.new.items ≡ desks_of posts.old.items }
    ensures len { length posts.new.items ≡ length posts.old.items }
    ensures room { vec_capacity posts.new ≡ vec_capacity posts.old }
{
    if let Some(mut post) = take_post(posts) {
        post.stop();
        stop_all(posts);
        posts.push_reserved(post);
    }
}

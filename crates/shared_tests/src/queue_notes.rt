//! Notes of several senders in one queue.

ghost use Rattle.std.specs.Prelude.{◌≡◌};

use context_queue::*;
use std::alloc::{AllocError, Global};
use std::sync::Wait;
use std::test::*;
use std::thread;

fn readable(sender: u8, slot: u32) -> Note {
    Note {
        kind: sender,
        slot,
        generation: 1,
    }
}

// The answers to three posts.
fn posted<R: Wait>(rt: &R, queue: &ContextQueue, sender: &mut SenderPass) -> [Result<(), Full>; 3]
    requires { sender.old.line ≡ queue.now.line }
{
    [
        queue.post(rt, sender, readable(1, 7)),
        queue.post(rt, sender, readable(1, 8)),
        queue.post(rt, sender, readable(1, 9)),
    ]
}

// The answers to three drains.
fn drained<R: Wait>(rt: &R, queue: &ContextQueue, receiver: &mut ReceiverPass) -> [Option<Note>; 3]
    requires { receiver.old.line ≡ queue.now.line }
    ensures { receiver.new.line ≡ receiver.old.line }
{
    [
        queue.drain_one(rt, receiver),
        queue.drain_one(rt, receiver),
        queue.drain_one(rt, receiver),
    ]
}

// The answers to three drains, then to three posts, and then to three drains.
fn drained_and_posted<R: Wait>(
    rt: &R,
    alloc: Global,
) -> Result<([Option<Note>; 3], [Result<(), Full>; 3], [Option<Note>; 3]), AllocError> {
    let (queue, mut receiver) = ContextQueue::new(alloc, 2)?;
    let mut sender = queue.sender(alloc, &mut receiver)?;
    let before = drained(rt, &queue, &mut receiver);
    let posted = posted(rt, &queue, &mut sender);
    let after = drained(rt, &queue, &mut receiver);
    Ok((before, posted, after))
}

#[test]
fn a_queue_of_two_holds_two_notes_in_order(rt: HostRuntime) -> Result<(), Fail> {
    let (before, posted, after) = drained_and_posted(&rt, rt.alloc())?;
    assert_eq!(rt; before, [None, None, None]);
    assert_eq!(rt; posted, [Ok(()), Ok(()), Err(Full)]);
    assert_eq!(rt; after, [Some(readable(1, 7)), Some(readable(1, 8)), None]);
    Ok(())
}

// Posts slots 0 to 999, each as often as it finds the queue full.
fn send_all<R: Wait>(rt: &R, queue: &ContextQueue, mut pass: SenderPass, sender: u8)
    requires { pass.line ≡ queue.now.line }
{
    let mut slot = 0;
    for _ in rt.forever() {
        if slot == 1_000 {
            return;
        }
        match queue.post(rt, &mut pass, readable(sender, slot)) {
            Ok(()) => slot += 1,
            Err(Full) => thread::yield_now(),
        }
    }
    unreachable!()
}

// Whether the slots of each of two senders come as 0 to 999.
fn receive_all<R: Wait>(rt: &R, queue: &ContextQueue, mut receiver: ReceiverPass) -> bool
    requires { receiver.line ≡ queue.now.line }
{
    let mut next = [0u32; 2];
    for _ in rt.forever() {
        if next[0] == 1_000 && next[1] == 1_000 {
            return true;
        }
        match queue.drain_one(rt, &mut receiver) {
            Some(note) => {
                let sender = usize::from(note.kind);
                if sender > 1 || next[sender] != note.slot || next[sender] == 1_000 {
                    return false;
                }
                next[sender] += 1;
            }
            None => thread::yield_now(),
        }
    }
    unreachable!()
}

#[test]
fn notes_of_two_senders_come_in_their_order(rt: HostRuntime) -> Result<(), Fail> {
    let (queue, mut receiver) = ContextQueue::new(rt.alloc(), 16)?;
    let zero = queue.sender(rt.alloc(), &mut receiver)?;
    let one = queue.sender(rt.alloc(), &mut receiver)?;
    let (shared, runtime) = (&queue, &rt);
    let (_, in_order) = thread::join(
        &rt,
        move ||
            requires { (zero.line ≡ shared.now.line) × (one.line ≡ shared.now.line) }
        {
            thread::join(
                runtime,
                move ||
                    requires { zero.line ≡ shared.now.line }
                { send_all(runtime, shared, zero, 0) },
                move ||
                    requires { one.line ≡ shared.now.line }
                { send_all(runtime, shared, one, 1) },
            )
        },
        move ||
            requires { receiver.line ≡ shared.now.line }
        { receive_all(runtime, shared, receiver) },
    );
    assert!(rt; in_order);
    Ok(())
}

//! Gates that hold a worker show that the threads of a run work at once.

ghost use Rattle.std.specs.Prelude.{◌≤◌};

use flow_state::{CallView, EntryView, FlowHistory, ReplyView};
use scenario_ranges::what_is_read_is_in_range;
use scenario_text::read_scenario;
use std::alloc::Global;
use std::hint::spin_loop;
use std::process::Abort;
use std::sync::Wait;
use std::sync::atomic::{AtomicBool, AtomicUsize, Ordering};
use std::test::*;
use std::thread::Threads;
use tas_model::Caller;
use tas_num::{Gate, NoGate};
use tas_round::{FlowList, Mode, RunLog, run};

/// How many turns a worker waits at most.
const TURNS: u32 = 10_000_000;

/// A client and a server, which exchange a word. The flow is of group 19 on host b, which core 1 of two has.
const ONE_CLIENT: &[u8] = b"host a 10.0.0.1 iss 1000 rto 3
host b 10.0.0.2 iss 5000 rto 3
app b server
listen lst 80
accept s lst
recv s 5
send s world
close s
app a client
connect s b 80
send s hello
recv s 5
close s
";

/// A second client, whose flow is of group 20 on host b, which core 0 of two has. Nobody accepts it.
const OTHER_CLIENT: &[u8] = b"app a other
connect s b 80
send s hello
close s
";

/// A client fills the ring of a server that reads late. The flow is of group 19.
const FULL_RING: &[u8] = b"host a 10.0.0.1 iss 1000 ring 1024 mss 512 rto 20
host b 10.0.0.2 iss 5000 ring 1024 mss 512 rto 20
app b server
listen lst 80
accept s lst
wait 30
recv s 3000
send s world
close s
app a client
connect s b 80
fill s 3000
recv s 5
close s
";

/// The same, where the group moves.
const FULL_RING_MOVED: &[u8] = b"host a 10.0.0.1 iss 1000 ring 1024 mss 512 rto 20
host b 10.0.0.2 iss 5000 ring 1024 mss 512 rto 20
app b server
listen lst 80
accept s lst
wait 30
recv s 3000
send s world
close s
app a client
connect s b 80
fill s 3000
recv s 5
close s
move b 19 0 at 2
";

/// Holds a worker that passes one point, once others did so often, until another point was passed so often, or for so
/// many turns.
#[derive(Drop)]
struct Hold {
    held: u32,
    /// How many passes of the held point come before.
    before: usize,
    until: u32,
    /// How many passes of the other point it waits for.
    wanted: usize,
    came: AtomicUsize,
    passed: AtomicUsize,
    was_held: AtomicBool,
    ran_out: AtomicBool,
}

impl Hold {
    fn new(held: u32, before: usize, until: u32, wanted: usize) -> Hold {
        Hold {
            held,
            before,
            until,
            wanted,
            came: AtomicUsize::new(0),
            passed: AtomicUsize::new(0),
            was_held: AtomicBool::new(false),
            ran_out: AtomicBool::new(false),
        }
    }

    fn wait(&self) {
        self.was_held.store(true, Ordering::SeqCst);
        for _ in 0..TURNS {
            if self.passed.load(Ordering::SeqCst) >= self.wanted {
                return;
            }
            // A turn takes longer so, and the other worker's thread has more time to start on a busy machine.
            spin_loop();
        }
        self.ran_out.store(true, Ordering::SeqCst);
    }
}

impl Gate for Hold {
    fn pass(&self, point: u32) {
        if point == self.until {
            self.passed.fetch_add(1, Ordering::SeqCst);
        }
        if point == self.held && self.came.fetch_add(1, Ordering::SeqCst) == self.before {
            self.wait();
        }
    }
}

/// The log of a scenario's run on so many cores.
fn run_on<R: Threads + Wait + Sync, G: Gate + Sync>(
    rt: &R,
    alloc: Global,
    text: &[u8],
    cores: u32,
    gate: &G,
) -> Result<RunLog, Fail>
    requires { (1 ≤ cores) × (cores ≤ 16) }
{
    let scenario = read_scenario(alloc, text)?;
    what_is_read_is_in_range();
    Ok(run(rt, alloc, &scenario, Mode::Cores(cores), gate)?)
}

/// How often a run is tried in which one worker waits for another: the thread of either may still be starting when its
/// time comes, and then another worker has its lane.
const TRIES: u32 = 5;

/// Runs a scenario on two cores by a gate that holds the worker that passes one point, once it did so often, until
/// another point was passed so often; in one of a few tries it must have held it, and not until its turns ran out. The
/// answer is that run's log.
fn meets<R: Threads + Wait + Sync + Abort>(
    rt: &R,
    alloc: Global,
    text: &[u8],
    held: (u32, usize),
    until: (u32, usize),
) -> Result<RunLog, Fail> {
    for _ in 1..TRIES {
        let gate = Hold::new(held.0, held.1, until.0, until.1);
        let log = run_on(rt, alloc, text, 2, &gate)?;
        if !gate.ran_out.load(Ordering::SeqCst) {
            assert!(rt; gate.was_held.load(Ordering::SeqCst));
            return Ok(log);
        }
    }
    let gate = Hold::new(held.0, held.1, until.0, until.1);
    let log = run_on(rt, alloc, text, 2, &gate)?;
    assert!(rt; gate.was_held.load(Ordering::SeqCst));
    assert!(rt; !gate.ran_out.load(Ordering::SeqCst));
    Ok(log)
}

/// Core 0 of host b is before a frame while core 1 handles one, and the other way round.
#[test]
fn two_cores_take_frames_at_once(rt: HostRuntime) -> Result<(), Fail> {
    let mut text = Vec::new(rt.alloc());
    text.extend_from_slice(ONE_CLIENT)?;
    text.extend_from_slice(OTHER_CLIENT)?;
    meets(&rt, rt.alloc(), &text, (64, 0), (67, 1))?;
    meets(&rt, rt.alloc(), &text, (66, 0), (65, 1))?;
    Ok(())
}

/// Core 1 of host b has the frame with the client's word, in tick 4, and waits until the server tried to receive it.
/// Its lane passes its points in both phases of each tick, so that this is its ninth time.
#[test]
fn a_core_waits_for_an_application(rt: HostRuntime) -> Result<(), Fail> {
    let log = meets(&rt, rt.alloc(), ONE_CLIENT, (66, 2), (127, 9))?;
    has_words(&rt, &log)
}

/// The server waits with its first try, in tick 4, until core 1 of its host handled the third frame, which is the one
/// with the client's word.
#[test]
fn an_application_waits_for_a_core(rt: HostRuntime) -> Result<(), Fail> {
    let log = meets(&rt, rt.alloc(), ONE_CLIENT, (126, 8), (67, 3))?;
    has_words(&rt, &log)
}

/// Wants the words of both ends read by the other one.
fn has_words<R: Abort>(rt: &R, log: &RunLog) -> Result<(), Fail> {
    assert!(rt; log.hosts.len() == 2);
    reads(rt, &log.hosts.item(0).flows, b"world")?;
    reads(rt, &log.hosts.item(1).flows, b"hello")
}

/// Wants one flow, whose only bytes that were read are these.
fn reads<R: Abort>(rt: &R, flows: &FlowList, word: &[u8]) -> Result<(), Fail> {
    assert!(rt; flows.len() == 1);
    let flow = flows.item(0);
    let mut found = false;
    for i in 0..flow.entries() {
        if let ReplyView::Got { bytes, .. } = flow.entry(i).reply {
            assert!(rt; !found);
            assert_eq!(rt; bytes, word);
            found = true;
        }
    }
    assert!(rt; found);
    Ok(())
}

/// How many segments of a flow this core received.
fn received_by(flow: &FlowHistory, core: u32) -> usize {
    let mut count = 0;
    for i in 0..flow.entries() {
        if is_received_by(flow.entry(i), core) {
            count += 1;
        }
    }
    count
}

fn is_received_by(entry: EntryView<'_>, core: u32) -> bool {
    matches!(entry.call, CallView::Rx { .. })
        && matches!(entry.caller, Caller::Core(k) if k == core)
}

/// Runs a scenario on two cores, and wants so many segments of the first flow of its second host received by each.
fn receives<R: Threads + Wait + Sync + Abort>(
    rt: &R,
    alloc: Global,
    text: &[u8],
    by_first: usize,
    by_second: usize,
) -> Result<(), Fail> {
    let log = run_on(rt, alloc, text, 2, &NoGate)?;
    assert!(rt; log.hosts.len() == 2);
    let flows = &log.hosts.item(1).flows;
    assert!(rt; flows.len() == 1);
    assert_eq!(rt; received_by(flows.item(0), 0), by_first);
    assert_eq!(rt; received_by(flows.item(0), 1), by_second);
    Ok(())
}

/// The flow's group is on core 1.
#[test]
fn frames_go_to_the_core_of_their_group(rt: HostRuntime) -> Result<(), Fail> {
    receives(&rt, rt.alloc(), FULL_RING, 0, 9)
}

/// The group moves to core 0 before the first segment that is for a core.
#[test]
fn frames_of_a_group_that_moved_go_to_its_core(rt: HostRuntime) -> Result<(), Fail> {
    receives(&rt, rt.alloc(), FULL_RING_MOVED, 9, 0)
}

//! Cores and applications share flows.
ghost use Rattle.std.specs.Prelude.{true, ◌≡◌, ℕ, ◌+◌, ◌<◌, ◌≤◌, ◌∷◌, [], length, IfOk, IfErr, IfSome};
ghost use Rattle.flow_lock.specs.Callers.{IsGuest, IsUser, IsHolder, IsKeeper, IsOwner};
ghost use Rattle.flow_lock.specs.Answers.{next_in};
ghost use Rattle.flow_lock.specs.Passes.{Seen};

use flow_lock::{FlowTable, Pass, Pin, PinRefused, SlowPass, Word};
use std::alloc::{AllocError, Global};
use std::test::Fail;
use tas_model::{Call, Caller, Entry, FlowId, FourTuple, HostParams, Recorded, Reply};

#[derive(Drop)]
struct Record {
    id: FlowId,
    tuple: FourTuple,
    params: HostParams,
    entries: Vec<Entry>,
}

impl Recorded for Record {
    ghost id = { λ r. r.id };

    ghost tuple = { λ r. r.tuple };

    ghost params = { λ r. r.params };

    ghost entries = { λ r. r.entries.items };
}

fn entry(core: u32) -> Entry {
    Entry {
        caller: Caller::Core(core),
        number: 0,
        tick: 0,
        call: Call::Emit,
        reply: Reply::Nothing,
    }
}

/// A record with its first entry.
fn record_of(alloc: Global, id: FlowId) -> Result<Record, AllocError>
    ensures { IfOk result (λ r. (r.id ≡ id) × (length r.entries.items ≡ 1)) }
{
    let mut entries = Vec::with_capacity(alloc, 1)?;
    entries.push_reserved(entry(0));
    let tuple = FourTuple {
        laddr: 1,
        lport: 80,
        raddr: 2,
        rport: 49_152,
    };
    let params = HostParams {
        addr: 1,
        iss: 0,
        ring: 1024,
        mss: 64,
        rto: 3,
        slots: 2,
        backlog: 1,
        fixed: false,
        scale: None,
    };
    Ok(Record {
        id,
        tuple,
        params,
        entries,
    })
}

fn enter(table: &FlowTable<Record>, pass: &mut Pass<Record>, id: FlowId) -> Result<Pin, Word>
    requires { IsGuest table.now pass.old × (id.slot < table.now.slots) }
    ensures pinned { IfOk result (λ p. (p ≡ id) × IsUser table.now id pass.new) }
    ensures refused { IfErr result (λ _. IsGuest table.now pass.new) }
{
    match table.pin(pass, id) {
        Ok(pin) => Ok(pin),
        Err(PinRefused::Stale(word)) => Err(word),
        Err(PinRefused::Moved(_, word)) => Err(word),
    }
}

fn leave(table: &FlowTable<Record>, pass: &mut Pass<Record>, pin: Pin)
    requires { IsUser table.now pin pass.old × (pin.slot < table.now.slots) }
    ensures { IsGuest table.now pass.new }
{
    table.unpin(pass, pin);
}

/// The word with its busy bit set, where another pass holds the record.
fn busy_word(table: &FlowTable<Record>, pass: &mut Pass<Record>, pin: &Pin) -> Option<Word>
    requires { IsUser table.now pin.now pass.old × (pin.now.slot < table.now.slots) }
    ensures { IsUser table.now pin.now pass.new }
{
    let item = match table.take(pass, pin) {
        Ok(item) => item,
        Err(word) => return Some(word),
    };
    table.give(pass, pin, item);
    None
}

/// What another pass finds while this one holds the record.
fn found_beside(
    table: &FlowTable<Record>,
    pass: &mut Pass<Record>,
    pin: &Pin,
    other: &mut Pass<Record>,
    other_pin: &Pin,
) -> Option<Word>
    requires pass { IsUser table.now pin.now pass.old × (pin.now.slot < table.now.slots) }
    requires other { IsUser table.now other_pin.now other.old × (other_pin.now.slot < table.now.slots) }
    ensures { IsUser table.now pin.now pass.new × IsUser table.now other_pin.now other.new }
{
    let Ok(item) = table.take(pass, pin) else {
        return None;
    };
    let found = busy_word(table, other, other_pin);
    table.give(pass, pin, item);
    found
}

/// Opens the next flow for the record.
fn open(
    table: &FlowTable<Record>,
    slow: &mut SlowPass<Record>,
    item: Record,
) -> Option<(FlowId, Pin)>
    requires slow { IsKeeper table.now slow.old × (slow.old.view.opened < 1000) }
    requires item { IfSome (next_in slow.old.view.marks) (λ id. item.id ≡ id) × (length item.entries.items ≡ 1) }
    ensures opened { IfSome result (λ p. (p.1 ≡ p.0) × (p.0.slot < table.now.slots) × IsOwner p.0 slow.new) }
    ensures keeper { IsKeeper table.now slow.new × (slow.new.view.opened ≤ slow.old.view.opened + 1) }
{
    match table.open_flow(slow, item) {
        Ok(opened) => Some(opened),
        Err((_, item)) => {
            drop(item);
            None
        }
    }
}

/// Opens the next flow, for a record with one entry. `None`: no slot is free, or memory is wanting.
fn open_next(
    alloc: Global,
    table: &FlowTable<Record>,
    slow: &mut SlowPass<Record>,
) -> Option<(FlowId, Pin)>
    requires { IsKeeper table.now slow.old × (slow.old.view.opened < 1000) }
    ensures opened { IfSome result (λ p. (p.1 ≡ p.0) × (p.0.slot < table.now.slots) × IsOwner p.0 slow.new) }
    ensures keeper { IsKeeper table.now slow.new × (slow.new.view.opened ≤ slow.old.view.opened + 1) }
{
    let next = slow.next_flow()?;
    let Ok(item) = record_of(alloc, next) else {
        return None;
    };
    open(table, slow, item)
}

/// Dooms a flow, and frees it unless another pass has pinned it.
fn retire(
    table: &FlowTable<Record>,
    slow: &mut SlowPass<Record>,
    pin: Pin,
) -> Result<Record, (u16, Pin)>
    requires { IsKeeper table.now slow.old × IsOwner pin slow.old × (pin.slot < table.now.slots) }
    ensures opened { slow.new.view.opened ≡ slow.old.view.opened }
    ensures freed { IfOk result (λ r. (r.id ≡ pin) × IsKeeper table.now slow.new) }
    ensures pinned { IfErr result (λ e. (e.1 ≡ pin) × IsKeeper table.now slow.new × IsOwner pin slow.new) }
{
    table.doom(slow, &pin);
    match table.free(slow, pin) {
        Ok(record) => Ok(record),
        Err((pinned, pin)) => Err((pinned.0, pin)),
    }
}

fn start(alloc: Global) -> Result<(FlowTable<Record>, SlowPass<Record>), AllocError>
    ensures slow { IfOk result (λ t. IsKeeper t.0 t.1 × (t.1.view.baton ≡ true) × (t.1.view.parts ≡ 4097)) }
    ensures table { IfOk result (λ t. (t.0.slots ≡ 2) × (t.1.view.opened ≡ 0)) }
{
    FlowTable::<Record>::new(alloc, 2)
}

/// A new pass.
fn guest(table: &FlowTable<Record>, slow: &mut SlowPass<Record>) -> Pass<Record>
    requires { IsKeeper table.now slow.old × (slow.old.view.baton ≡ true) × (4000 < slow.old.view.parts) }
    ensures new { IsGuest table.now result }
    ensures slow { IsKeeper table.now slow.new × (slow.new.view.baton ≡ true) }
    ensures same { (slow.new.view.parts + 1 ≡ slow.old.view.parts) × (slow.new.view.opened ≡ slow.old.view.opened) }
{
    table.split(slow)
}

fn farewell(table: &FlowTable<Record>, slow: &mut SlowPass<Record>, pass: Pass<Record>)
    requires { (slow.old.table ≡ table.now) × (slow.old.view.held ≡ []) × IsGuest table.now pass }
    ensures { (slow.new.table ≡ table.now) × (slow.new.view.held ≡ []) }
{
    table.join(slow, pass);
}

/// A flow is opened, pinned by another pass, doomed, and freed once that pin is given up.
fn one_life(
    alloc: Global,
    table: &FlowTable<Record>,
    slow: &mut SlowPass<Record>,
    pass: &mut Pass<Record>,
) -> Option<FlowId>
    requires slow { IsKeeper table.now slow.old × (slow.old.view.opened < 1000) }
    requires pass { IsGuest table.now pass.old }
    ensures slow { IsKeeper table.now slow.new × (slow.new.view.opened ≤ slow.old.view.opened + 1) }
    ensures pass { IsGuest table.now pass.new }
    ensures slot { IfSome result (λ id. id.slot < table.now.slots) }
{
    let (id, pin) = open_next(alloc, table, slow)?;
    let Ok(mine) = enter(table, pass, id) else {
        return None;
    };
    let held_back = retire(table, slow, pin);
    leave(table, pass, mine);
    let Err((2, pin)) = held_back else {
        return None;
    };
    match retire(table, slow, pin) {
        Ok(_) => Some(id),
        Err(_) => None,
    }
}

fn flow(slot: u32, generation: u32) -> FlowId {
    FlowId { slot, generation }
}

/// The flows of three lives, one after the other.
fn three_lives(alloc: Global) -> Result<[Option<FlowId>; 3], AllocError> {
    let (table, mut slow) = start(alloc)?;
    let mut pass = guest(&table, &mut slow);
    let first = one_life(alloc, &table, &mut slow, &mut pass);
    let second = one_life(alloc, &table, &mut slow, &mut pass);
    let third = one_life(alloc, &table, &mut slow, &mut pass);
    Ok([first, second, third])
}

#[test]
fn a_slot_is_used_again_and_again(rt: HostRuntime) -> Result<(), Fail> {
    let lives = three_lives(rt.alloc())?;
    assert_eq!(rt;
        lives,
        [Some(flow(0, 1)), Some(flow(0, 2)), Some(flow(0, 3))]
    );
    Ok(())
}

/// Two passes pin the flow. What the second finds while the first holds the record, and the two pins.
fn shared_by_two(
    table: &FlowTable<Record>,
    app: &mut Pass<Record>,
    core: &mut Pass<Record>,
    id: FlowId,
) -> Option<(Word, Pin, Pin)>
    requires { IsGuest table.now app.old × IsGuest table.now core.old × (id.slot < table.now.slots) }
    ensures app { IfSome result (λ s. (s.1 ≡ id) × IsUser table.now id app.new) }
    ensures core { IfSome result (λ s. (s.2 ≡ id) × IsUser table.now id core.new) }
{
    let Ok(first) = enter(table, app, id) else {
        return None;
    };
    let Ok(second) = enter(table, core, id) else {
        return None;
    };
    let word = found_beside(table, app, &first, core, &second)?;
    Some((word, first, second))
}

/// Dooms a flow that other passes have pinned. How many pins it has, and what a pass meets that comes then.
fn held_back(
    table: &FlowTable<Record>,
    slow: &mut SlowPass<Record>,
    pin: Pin,
    late: &mut Pass<Record>,
) -> Option<(u16, Word, Pin)>
    requires slow { IsKeeper table.now slow.old × IsOwner pin slow.old × (pin.slot < table.now.slots) }
    requires late { IsGuest table.now late.old }
    ensures { IfSome result (λ h. (h.2 ≡ pin) × IsKeeper table.now slow.new × IsOwner pin slow.new) }
{
    let Err((pins, pin)) = retire(table, slow, pin) else {
        return None;
    };
    match enter(table, late, pin.id()) {
        Ok(_) => None,
        Err(word) => Some((pins, word, pin)),
    }
}

/// What passes see of a flow.
#[derive(Clone, Copy)]
struct Life {
    opened: FlowId,
    /// While a pass holds its record.
    held: Word,
    /// How many pins it has when it is doomed.
    pins: u16,
    /// By then.
    doomed: Word,
    freed: FlowId,
}

/// A flow is shared by two passes, doomed, and freed once they have given their pins up.
fn shared_life(alloc: Global) -> Option<Life> {
    let Ok((table, mut slow)) = start(alloc) else {
        return None;
    };
    let mut app = guest(&table, &mut slow);
    let mut core = guest(&table, &mut slow);
    let mut late = guest(&table, &mut slow);
    let (opened, pin) = open_next(alloc, &table, &mut slow)?;
    let (held, first, second) = shared_by_two(&table, &mut app, &mut core, opened)?;
    let (pins, doomed, pin) = held_back(&table, &mut slow, pin, &mut late)?;
    leave(&table, &mut app, first);
    leave(&table, &mut core, second);
    let Ok(record) = retire(&table, &mut slow, pin) else {
        return None;
    };
    Some(Life {
        opened,
        held,
        pins,
        doomed,
        freed: record.id,
    })
}

#[test]
fn a_flow_is_shared_doomed_and_freed(rt: HostRuntime) -> Result<(), Fail> {
    let Some(life) = shared_life(rt.alloc()) else {
        panic!(rt; "no flow was shared, doomed and freed")
    };
    assert_eq!(rt; [life.opened, life.freed], [flow(0, 1), flow(0, 1)]);
    assert!(rt; life.held.busy && life.held.live && life.held.pins == 3);
    assert!(rt; life.pins == 3 && life.doomed.live && life.doomed.doomed);
    Ok(())
}

/// The slots once a flow was freed: the next flow of its slot, what a pass meets that still asks for the one of the
/// past, and the flow of the slot that is left.
fn opened_after(
    alloc: Global,
    table: &FlowTable<Record>,
    slow: &mut SlowPass<Record>,
    late: &mut Pass<Record>,
    past: FlowId,
) -> Option<(FlowId, Word, FlowId)>
    requires slow { IsKeeper table.now slow.old × (slow.old.view.opened < 900) }
    requires late { IsGuest table.now late.old × (past.slot < table.now.slots) }
    ensures slow { IfSome result (λ o. IsKeeper table.now slow.new × (o.0.slot < table.now.slots)) }
    ensures late { IfSome result (λ _. IsGuest table.now late.new) }
{
    let (again, _) = open_next(alloc, table, slow)?;
    let Err(word) = enter(table, late, past) else {
        return None;
    };
    let (last, _) = open_next(alloc, table, slow)?;
    Some((again, word, last))
}

/// The two flows whose records come out.
fn records(alloc: Global, table: FlowTable<Record>, slow: SlowPass<Record>) -> Option<[FlowId; 2]>
    requires { (slow.table ≡ table) × (slow.view.held ≡ []) }
{
    let Ok(mut closed) = table.close(alloc, slow) else {
        return None;
    };
    let first = closed.next()?;
    let second = closed.next()?;
    if closed.next().is_some() {
        return None;
    }
    Some([first.id, second.id])
}

/// What passes see of two slots of which one was used before.
#[derive(Clone, Copy)]
struct Reuse {
    past: FlowId,
    again: FlowId,
    /// The word that a pass meets which still asks for the flow of the past.
    word: Word,
    last: FlowId,
    /// Whether both slots have flows then, and the one of the past is none of them.
    full: bool,
    closed: [FlowId; 2],
}

/// A flow comes and goes, both slots are opened, and the table is closed.
fn reused(alloc: Global) -> Option<Reuse> {
    let Ok((table, mut slow)) = start(alloc) else {
        return None;
    };
    let mut pass = guest(&table, &mut slow);
    let mut late = guest(&table, &mut slow);
    let past = one_life(alloc, &table, &mut slow, &mut pass)?;
    let (again, word, last) = opened_after(alloc, &table, &mut slow, &mut late, past)?;
    let full = slow.next_flow().is_none() && slow.is_open(again) && !slow.is_open(past);
    farewell(&table, &mut slow, pass);
    farewell(&table, &mut slow, late);
    let closed = records(alloc, table, slow)?;
    Some(Reuse {
        past,
        again,
        word,
        last,
        full,
        closed,
    })
}

#[test]
fn a_freed_slot_is_opened_first(rt: HostRuntime) -> Result<(), Fail> {
    let Some(reuse) = reused(rt.alloc()) else {
        panic!(rt; "no flow came and went, or the slots were not opened, or a record is missing")
    };
    assert!(rt; reuse.full && reuse.word.generation == 2);
    let closed = reuse.closed;
    assert_eq!(rt; closed, [reuse.again, reuse.last]);
    let flows = [reuse.past, reuse.again, reuse.last];
    assert_eq!(rt; flows, [flow(0, 1), flow(0, 2), flow(1, 1)]);
    Ok(())
}

//! Applications that ended with the baton, and so alone, are reaped, also where they hold a record.
ghost use Rattle.std.specs.Prelude.{◌≡◌, [], false, None, IfErr, OnOk};
ghost use Rattle.flow_lock.specs.Steps.{IsAlone};
ghost use Rattle.app_reaper.specs.Reaping.{IsAtRest};
ghost use Rattle.app_reaper.specs.Holding.{IsEndedAlone, IsReapedWithBaton, IsReapedWithBatonInPart};

use crate::ended::Ended;
use crate::one_call::CallFault;
use crate::reaping::{abort_all, give_back};
use flow_lock::{FlowTable, SlowPass};
use flow_state::FlowRecord;
use std::alloc::AllocError;

/// `reap_alone` where the application's pass has the baton, so that it may have taken a record before it ended: the
/// slow path has neither the baton nor a turn, and is alone again afterwards. No flow is found busy: all is done, or
/// memory is wanting. After a fault what was done stands, and the rest can be reaped by `reap_alone`.
pub fn reap_with_baton(
    table: &FlowTable<FlowRecord>,
    slow: &mut SlowPass<FlowRecord>,
    ended: Ended,
    tick: u32,
) -> Result<(), (AllocError, Ended)>
    requires slow { (slow.old.table ≡ table.now) × (slow.old.view.baton ≡ false) × (slow.old.view.turns ≡ [])
        × (slow.old.view.held ≡ []) }
    requires ended { IsEndedAlone table.now ended }
    ensures table { slow.new.table ≡ slow.old.table }
    ensures alone { IsAlone slow.new.view }
    ensures free { slow.new.view.held ≡ [] }
    ensures reaped { OnOk result (IsReapedWithBaton tick ended slow.old slow.new) }
    ensures stopped { IfErr result (λ e. IsReapedWithBatonInPart tick ended e.1 slow.old slow.new) }
    ensures left { IfErr result (λ e. IsAtRest table.now e.1 × (e.1.held ≡ None)) }
    ensures same { IfErr result (λ e. (e.1.app ≡ ended.app) × (e.1.busy ≡ ended.busy)) }
{
    let Ended {
        app,
        pass,
        held,
        busy,
        pins,
    } = ended;
    let mut pass = pass;
    let mut pins = pins;
    give_back(table, &mut pass, &pins, held);
    let done = abort_all(table, &mut pass, &mut pins, tick);
    table.pass_back(&mut pass, slow);
    match done {
        Ok(()) => {
            table.join(slow, pass);
            Ok(())
        }
        Err(CallFault::OutOfMemory) => {
            let left = Ended {
                app,
                pass,
                held: None,
                busy,
                pins,
            };
            Err((AllocError, left))
        }
        Err(CallFault::Busy(_)) => unreachable!(),
    }
}

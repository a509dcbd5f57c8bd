//! Many flows are opened in a row.
ghost use Rattle.std.specs.Prelude.{◌≡◌, [], IsTrue};
ghost use Rattle.tas_model.specs.Valid.{InRange};
ghost use Rattle.socket_tests.specs.Going.{HasFirstTurn, HasSecondTurn};

use crate::alone::{connect, two_passes};
use crate::flows::{PARAMS, application};
use app_reaper::PinList;
use flow_lock::{FlowTable, SlowPass};
use flow_state::FlowRecord;
use libtas_sockets::App;
use slow_handshake::SlowPath;
use std::alloc::Global;
use std::test::*;

/// How many flows are opened, and how many slots there are.
const FLOWS: u32 = 20;

/// The application connects. Whether it did.
fn is_connected(
    table: &FlowTable<FlowRecord>,
    path: &mut SlowPath,
    slow: &mut SlowPass<FlowRecord>,
    pins: &mut PinList,
    app: &mut App,
) -> bool
    requires slow { HasFirstTurn table.now slow.old }
    requires app { HasSecondTurn table.now app.old.pass × (app.old.begun ≡ []) }
    requires ranges { InRange path.old.params }
    ensures slow { IsTrue result → HasFirstTurn table.now slow.new }
    ensures app { IsTrue result → HasSecondTurn table.now app.new.pass × (app.new.begun ≡ []) }
    ensures ranges { path.new.params ≡ path.old.params }
{
    connect(table, path, slow, pins, app).is_ok()
}

/// How many times the application connects, of so many that there are slots.
fn connections(
    table: &FlowTable<FlowRecord>,
    path: &mut SlowPath,
    slow: &mut SlowPass<FlowRecord>,
    pins: &mut PinList,
    app: &mut App,
) -> u32
    requires slow { HasFirstTurn table.now slow.old }
    requires app { HasSecondTurn table.now app.old.pass × (app.old.begun ≡ []) }
    requires ranges { InRange path.old.params }
{
    for made in 0..FLOWS {
        if !is_connected(table, path, slow, pins, app) {
            return made;
        }
    }
    FLOWS
}

/// How many flows the slow path has pins of, and how many times an application connected.
fn connected(alloc: Global) -> Option<(usize, u32)> {
    let Ok((table, mut slow, pass)) = two_passes(alloc, FLOWS) else {
        return None;
    };
    let Ok(mut app) = application(alloc, pass) else {
        return None;
    };
    let Ok(mut path) = SlowPath::new(alloc, PARAMS) else {
        return None;
    };
    let mut pins = PinList::new(alloc);
    let made = connections(&table, &mut path, &mut slow, &mut pins, &mut app);
    Some((pins.len(), made))
}

#[test]
fn an_application_connects_twenty_times_in_a_row(rt: HostRuntime) -> Result<(), Fail> {
    assert_eq!(rt; connected(rt.alloc()), Some((20, 20)));
    Ok(())
}

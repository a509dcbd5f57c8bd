//! A host is put together, with applications that listen.
ghost use Rattle.std.specs.Prelude.{◌≡◌, ◌≤◌, All, IfSome};
ghost use Rattle.host_tests.specs.Hosts.{AreApps, AreCores, AreEach, IsApp, IsCore, IsFresh, IsSlow};

use crate::hosts::{Client, Clients, Cores, Host};
use crate::packets::HOST;
use core_worker::{CoreWorker, Shared};
use libtas_sockets::{App, Socket};
use shared_host::{Assembled, add_app, assemble};
use slow_worker::SlowWorker;
use std::alloc::Global;
use std::sync::Wait;
use tas_model::HostParams;

/// What stands for sockets before flows are accepted.
const NO_SOCKETS: (Socket, Socket) = (Socket(0), Socket(0));

const PARAMS: HostParams = HostParams {
    addr: HOST,
    iss: 5000,
    ring: 16384,
    mss: 1460,
    rto: 3,
    slots: 16,
    backlog: 4,
    fixed: false,
    scale: None,
};

/// Adds both applications. `None` where memory is wanting.
fn add_both(
    alloc: Global,
    shared: &mut Shared,
    slow: &mut SlowWorker,
    cores: &mut [CoreWorker],
) -> Option<(App, App)>
    requires slow { IsFresh shared.old slow.old }
    requires cores { AreEach shared.old cores.old }
    ensures apps { IfSome result (λ apps. IsApp shared.new 0 apps.0 × IsApp shared.new 1 apps.1) }
    ensures slow { IfSome result (λ _. IsSlow shared.new slow.new) }
    ensures cores { IfSome result (λ _. All (IsCore shared.new) cores.new) }
    ensures steering { shared.new.steering ≡ shared.old.steering }
{
    let Ok(first) = add_app(alloc, 0, shared, slow, cores) else {
        return None;
    };
    let Ok(second) = add_app(alloc, 1, shared, slow, cores) else {
        return None;
    };
    Some((first, second))
}

/// The application listens on a port. Whether it does.
fn listen(shared: &Shared, slow: &mut SlowWorker, app: &mut App, number: u32, port: u16) -> bool
    requires app { IsSlow shared.now slow.old × IsApp shared.now number app.old }
    requires port { (1 ≤ port) × (port ≤ 49151) }
    ensures { IsSlow shared.now slow.new × IsApp shared.now number app.new }
{
    app.listen(&mut slow.path, port).is_ok()
}

/// Application 0 listens on port 80, and application 1 on 81. Whether they do.
pub fn listen_both(shared: &Shared, slow: &mut SlowWorker, clients: &mut Clients) -> bool
    requires { IsSlow shared.now slow.old × AreApps shared.now clients.old }
    ensures { IsSlow shared.now slow.new × AreApps shared.now clients.new }
{
    listen(shared, slow, &mut clients.first.app, 0, 80)
        && listen(shared, slow, &mut clients.second.app, 1, 81)
}

/// What the workers of an assembled host share, and the host.
pub fn started<R: Wait>(rt: &R, alloc: Global) -> Option<(Shared, Host)>
    ensures slow { IfSome result (λ h. IsSlow h.0 h.1.slow) }
    ensures cores { IfSome result (λ h. AreCores h.0 h.1.cores) }
    ensures first { IfSome result (λ h. IsApp h.0 0 h.1.clients.first.app) }
    ensures second { IfSome result (λ h. IsApp h.0 1 h.1.clients.second.app) }
{
    let Ok(assembled) = assemble(rt, alloc, 1, PARAMS, 2) else {
        return None;
    };
    let Assembled {
        mut shared,
        mut slow,
        steer,
        cores: mut workers,
    } = assembled;
    match add_both(alloc, &mut shared, &mut slow, &mut workers) {
        Some((first, second)) => {
            let host = Host {
                slow,
                cores: Cores { steer, workers },
                clients: Clients {
                    first: Client {
                        app: first,
                        sockets: NO_SOCKETS,
                    },
                    second: Client {
                        app: second,
                        sockets: NO_SOCKETS,
                    },
                },
            };
            Some((shared, host))
        }
        None => {
            drop(slow.end(rt));
            None
        }
    }
}

//! What hosts of shared flows leave when a run is over.
ghost use Rattle.std.specs.Prelude.{◌≡◌, ◌++◌, List, length, IfOk, OnOk};
ghost use Rattle.std.specs.Vec.Iter.{into_iter_items, into_iter_len};
ghost use Rattle.core_host.specs.Ending.{AreFiled};
ghost use Rattle.core_host.specs.Sound.{IsStaffSound};
ghost use Rattle.core_host.specs.Views.{Staffed, seen_by};
ghost use Rattle.host_rounds.specs.Lists.{Each};
ghost use Rattle.local_host.specs.Live.{IsLegal};
ghost use Rattle.local_host.specs.declared.host.HostEnd.{HostEnd};
ghost use Rattle.scenario_world.specs.Ends.{IsEnd};
ghost use Rattle.shared_world.specs.Sites.{AreLeft};

use core_host::CoreHost;
use local_host::HostEnd;
use std::alloc::{AllocError, Global};
use std::sync::Wait;
use std::vec::IntoIter;

/// Ends hosts of which nothing is wanted.
pub(crate) fn end_hosts<R: Wait>(rt: &R, hosts: Vec<CoreHost>) {
    end_rest(rt, hosts.into_iter());
}

/// Ends those that are left.
fn end_rest<R: Wait>(rt: &R, hosts: IntoIter<CoreHost, Global>) {
    let mut left = hosts;
    while let Some(host) = left.next() {
        host.end(rt);
    }
    left.destroy_empty();
}

/// What these hosts leave, in their order. The error is want of memory.
pub(crate) fn finish_all<R: Wait>(
    rt: &R,
    alloc: Global,
    hosts: Vec<CoreHost>,
) -> Result<Vec<HostEnd>, AllocError>
    requires sound { Each IsStaffSound hosts.items }
    requires filed { Each (λ (h : Staffed). AreFiled h.host) hosts.items }
    ensures ends { IfOk result (λ ends. AreLeft hosts.items ends.items) }
    ensures legal { IfOk result (λ ends. Each (λ (e : HostEnd). Each IsLegal e.flows.items) ends.items) }
{
    let mut left = hosts.into_iter();
    let mut ends = Vec::new(alloc);
    let done = finish_each(rt, &mut left, &mut ends);
    end_rest(rt, left);
    done?;
    Ok(ends)
}

/// Those that are left leave their ends behind these. The error is want of memory.
fn finish_each<R: Wait>(
    rt: &R,
    left: &mut IntoIter<CoreHost, Global>,
    ends: &mut Vec<HostEnd>,
) -> Result<(), AllocError>
    requires len { into_iter_len left.old ≡ length (into_iter_items left.old) }
    requires sound { Each IsStaffSound (into_iter_items left.old) }
    requires filed { Each (λ (h : Staffed). AreFiled h.host) (into_iter_items left.old) }
    requires legal { Each (λ (e : HostEnd). Each IsLegal e.flows.items) ends.old.items }
    ensures ends { OnOk result ((more : List HostEnd) × (ends.new.items ≡ ends.old.items ++ more)
        × AreLeft (into_iter_items left.old) more) }
    ensures legal { OnOk result (Each (λ (e : HostEnd). Each IsLegal e.flows.items) ends.new.items) }
{
    while let Some(host) = left.next() {
        ends.push(finish(rt, host)?)?;
    }
    Ok(())
}

/// What the host leaves. The error is want of memory.
fn finish<R: Wait>(rt: &R, host: CoreHost) -> Result<HostEnd, AllocError>
    requires sound { IsStaffSound host }
    requires filed { AreFiled host.host }
    ensures end { IfOk result (λ end. IsEnd (seen_by host) end) }
    ensures legal { IfOk result (λ end. Each IsLegal end.flows.items) }
{
    let end = host.finish(rt)?;
    Ok(HostEnd {
        log: end.log,
        flows: end.flows,
    })
}

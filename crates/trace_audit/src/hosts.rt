//! The hosts of a scenario, as an audit wants them.

ghost use Rattle.std.specs.Prelude.{◌≡◌, map, IfOk};
ghost use Rattle.trace_audit.specs.Forms.{names_of as model_names_of, params_of as model_params_of};
ghost use Rattle.trace_audit.specs.Forms.{addrs_of as model_addrs_of};

use scenario_text::HostLine;
use std::alloc::{AllocError, Global};
use tas_model::HostParams;

/// The names of hosts. The error is want of memory.
pub fn names_of(alloc: Global, hosts: &[HostLine]) -> Result<Vec<&[u8]>, AllocError>
    ensures { IfOk result (λ names. map (λ n. n.now) names.items ≡ model_names_of hosts.now) }
{
    let mut names = Vec::new(alloc);
    for host in hosts {
        names.push(host.name.as_slice())?;
    }
    Ok(names)
}

/// Their parameters. The error is want of memory.
pub fn params_of(alloc: Global, hosts: &[HostLine]) -> Result<Vec<HostParams>, AllocError>
    ensures { IfOk result (λ params. params.items ≡ model_params_of hosts.now) }
{
    let mut params = Vec::new(alloc);
    for host in hosts {
        params.push(host.params)?;
    }
    Ok(params)
}

/// The addresses of hosts with these parameters. The error is want of memory.
pub fn addrs_of(alloc: Global, hosts: &[HostParams]) -> Result<Vec<u32>, AllocError>
    ensures { IfOk result (λ addrs. addrs.items ≡ model_addrs_of hosts.now) }
{
    let mut addrs = Vec::new(alloc);
    for host in hosts {
        addrs.push(host.addr)?;
    }
    Ok(addrs)
}

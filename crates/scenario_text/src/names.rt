//! Names that were read, and where they stand.

ghost use Rattle.std.specs.Prelude.{◌≡◌, ◌||◌, ◌&&◌, List, ℕ, Bool, bytes_eq, IfOk, OnOk};
ghost use Rattle.scenario_text.specs.Drafts as drafts;

use crate::roles::Roles;
use std::alloc::{AllocError, Global};
use std::collections::{BTreeMap, BTreeSet};

/// The name of an application behind that of its host.
pub type AppName = (Vec<u8>, Vec<u8>);

/// The names that were read, so that each is found without a walk over all of them.
#[derive(Drop)]
pub struct Names {
    /// What the names of the last application are.
    pub roles: Roles,
    /// Those of all applications.
    pub apps: BTreeSet<AppName>,
    /// Those of the applications that a line kills.
    pub kills: BTreeSet<AppName>,
}

impl Names {
    /// No names. It takes no memory.
    pub(crate) fn new(alloc: Global) -> Names
        ensures { drafts.AreNames result drafts.no_draft }
    {
        Names {
            roles: BTreeMap::new(alloc),
            apps: BTreeSet::new(alloc),
            kills: BTreeSet::new(alloc),
        }
    }
}

/// The name of an application of a host. The error is want of memory.
fn app_name(alloc: Global, host: &[u8], name: &[u8]) -> Result<AppName, AllocError>
    ensures host { IfOk result (λ n. n.0.items ≡ host.now) }
    ensures name { IfOk result (λ n. n.1.items ≡ name.now) }
{
    Ok((Vec::from_slice(alloc, host)?, Vec::from_slice(alloc, name)?))
}

/// Whether a set has the name of an application. The error is want of memory.
pub(crate) fn has_name(
    alloc: Global,
    names: &BTreeSet<AppName>,
    host: &[u8],
    name: &[u8],
) -> Result<bool, AllocError>
    ensures { IfOk result (λ found. (test : List ℕ → List ℕ → Bool) → drafts.HaveNames names.now test
        → found ≡ test host.now name.now) }
{
    let name = app_name(alloc, host, name)?;
    Ok(names.contains(&name))
}

/// Takes the name of an application up. The error is want of memory.
pub(crate) fn take_name(
    alloc: Global,
    names: &mut BTreeSet<AppName>,
    host: &[u8],
    name: &[u8],
) -> Result<(), AllocError>
    ensures { OnOk result ((test : List ℕ → List ℕ → Bool) → drafts.HaveNames names.old test
        → drafts.HaveNames names.new (λ h n. test h n || (bytes_eq host.now h && bytes_eq name.now n))) }
{
    let name = app_name(alloc, host, name)?;
    names.insert(name)?;
    Ok(())
}
